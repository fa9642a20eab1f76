// The words of a line of the console: the command that the first one names, and the numbers and the bytes after it.
#![tactic(auto)]

mod digits;

ghost use Rattle.std.specs.Prelude.{◌^◌, ◌≤◌, ◌≡◌, true, false, length};
ghost use Rattle.text_scan.specs.Number.{read_of, wide_read_of};
ghost use Rattle.text_words.specs.Names.{place_of, words_of, names};
ghost use Rattle.text_words.specs.Numbers.{listed_of, leading_of, ends_word, word_at, leading_from, numbers_from, numbers_before, pair_of, pair_from, length_of};

pub use digits::{Spelled, bytes_at, last_bytes};
use integers_wide::Wide;
use text_scan::{Number, WideNumber};

// The commands: the places of their names among the names.
pub const READ: usize = 0;

pub const HAND: usize = 1;

pub const REWIND: usize = 2;

pub const CLEAR: usize = 3;

pub const PLAIN: usize = 4;

pub const IMAGE: usize = 5;

pub const SHORTEST: usize = 6;

pub const PROPOSE: usize = 7;

pub const TALLY: usize = 8;

pub const TRAY: usize = 9;

pub const TRAY_HAND: usize = 10;

pub const TRAY_REWIND: usize = 11;

pub const TRAY_CLEAR: usize = 12;

pub const WORD: usize = 13;

pub const COST: usize = 14;

pub const TRAY_COST: usize = 15;

pub const QASM: usize = 16;

pub const UNQASM: usize = 17;

pub const SHEET: usize = 18;

pub const PUT_SHEET: usize = 19;

pub const SIGN: usize = 20;

pub const LINE: usize = 21;

pub const ENTRY: usize = 22;

pub const EXPONENT: usize = 23;

pub const REAL: usize = 24;

pub const IMAGINARY: usize = 25;

pub const DIVIDE: usize = 26;

pub const LAMBDA: usize = 27;

pub const OMEGA: usize = 28;

pub const DELTA: usize = 29;

pub const IDENTITY: usize = 30;

pub const OPERATOR: usize = 31;

pub const APPLY: usize = 32;

pub const INVERSE: usize = 33;

pub const MATRIX: usize = 34;

pub const PRODUCT: usize = 35;

pub const DETERMINANT: usize = 36;

// Numbers of a line, at most 16, where the words are good, and where the word after them begins.
#[derive(Clone, Copy)]
pub struct Numbers {
    pub values: [i64; 16],
    pub count: usize,
    pub end: usize,
    pub good: bool,
}

// Two numbers of two words.
#[derive(Clone, Copy)]
pub enum Pair {
    Both(Wide, Wide),
    Bad,
}

// The command that a word names; one that names none is past the last.
pub fn command_of(word: &[u8]) -> usize
    ensures { result ≡ place_of word.now names }
{
    place_of(
        word,
        b"read hand rewind clear plain image shortest propose tally \
          tray tray-hand tray-rewind tray-clear \
          word cost tray-cost qasm unqasm sheet put-sheet \
          sign line entry exponent real imaginary divide lambda omega delta identity \
          operator apply inverse matrix product determinant",
    )
}

// The place of a word among the words of a text.
pub fn place_of(word: &[u8], text: &[u8]) -> usize
    ensures { result ≡ place_of word.now (words_of text.now) }
{
    let mut at = 0;
    let mut i = 0;
    // A while: the step is a word and the byte behind it.
    while at < text.len() {
        let end = text_scan::word_end(text, at);
        if check::same(word, &text[at..end]) {
            return i;
        }
        at = end + 1;
        i += 1;
    }
    i
}

// The numbers from a place on, where there is nothing else.
pub fn numbers_from(line: &[u8], from: usize) -> Numbers
    ensures { listed_of result ≡ numbers_from line.now from }
{
    let n = leading(line, from, 16);
    if n.end < line.len() {
        return no_numbers();
    }
    n
}

// The first n numbers from a place on, of which there may be 16, and where the word after them begins.
pub fn numbers_before(line: &[u8], from: usize, n: usize) -> Numbers
    ensures { leading_of result ≡ numbers_before n line.now from }
{
    if 16 < n {
        return no_numbers();
    }
    let l = leading(line, from, n);
    if l.count != n {
        return no_numbers();
    }
    l
}

// The numbers from a place on, at most `most`.
fn leading(line: &[u8], from: usize, most: usize) -> Numbers
    requires { most ≤ 16 }
    ensures { (leading_of result ≡ leading_from most line.now from) × (result.count ≤ 16) × (length result.values ≡ 16) }
{
    let mut values = [0i64; 16];
    let mut count = 0;
    let mut at = text_scan::spaces_from(line, from);
    // A while: the step is a word and the spaces behind it.
    while at < line.len() {
        if most <= count {
            return counted(values, count, at);
        }
        let n = word_at(line, at);
        let Number::Value(v, next) = n else {
            return no_numbers();
        };
        values[count] = v;
        count += 1;
        at = next;
    }
    counted(values, count, at)
}

fn counted(values: [i64; 16], count: usize, end: usize) -> Numbers
    ensures { (result.values ≡ values) × (result.count ≡ count) × (result.end ≡ end) × (result.good ≡ true) }
{
    Numbers {
        values,
        count,
        end,
        good: true,
    }
}

// A line that is not read.
fn no_numbers() -> Numbers
    ensures { (result.good ≡ false) × (result.count ≡ 0) × (length result.values ≡ 16) }
{
    Numbers {
        values: [0; 16],
        count: 0,
        end: 0,
        good: false,
    }
}

// The number that is the word at a place, and where the next word begins.
fn word_at(line: &[u8], at: usize) -> Number
    ensures { read_of result ≡ word_at (2 ^ 63) line.now at }
{
    let n = text_scan::number_at(line, at);
    match n {
        Number::Value(v, end) => {
            if ends_word(line, end) {
                return Number::Value(v, text_scan::spaces_from(line, end));
            }
            Number::Bad
        }
        Number::Bad => Number::Bad,
    }
}

// The same for a number of two words. The two stay apart, since their answers are types of their own.
fn wide_word_at(line: &[u8], at: usize) -> WideNumber
    ensures { wide_read_of result ≡ word_at (2 ^ 127) line.now at }
{
    let n = text_scan::wide_number_at(line, at);
    match n {
        WideNumber::Value(v, end) => {
            if ends_word(line, end) {
                return WideNumber::Value(v, text_scan::spaces_from(line, end));
            }
            WideNumber::Bad
        }
        WideNumber::Bad => WideNumber::Bad,
    }
}

// Whether a word ends at a place.
#[tactic(auto, unfolding(crate::specs::Numbers::ends_word))]
fn ends_word(line: &[u8], at: usize) -> bool
    ensures { result ≡ ends_word line.now at }
{
    line.len() <= at || line[at] == b' '
}

// Two numbers of two words from a place on, where there is nothing else.
pub fn pair_from(line: &[u8], from: usize) -> Pair
    ensures { pair_of result ≡ pair_from line.now from }
{
    let first = wide_word_at(line, text_scan::spaces_from(line, from));
    let WideNumber::Value(p, at) = first else {
        return Pair::Bad;
    };
    let second = wide_word_at(line, at);
    let WideNumber::Value(q, end) = second else {
        return Pair::Bad;
    };
    if end < line.len() {
        return Pair::Bad;
    }
    Pair::Both(p, q)
}

// The length of a slice of numbers or letters to be lent: from 0 to 4,096.
pub fn lent(n: i64) -> Option<usize>
    ensures { result ≡ length_of 4096 n }
{
    length_to(n, 4096)
}

// The length of a slice for a text or a sheet to be lent: from 0 to 65,536.
pub fn room(n: i64) -> Option<usize>
    ensures { result ≡ length_of 65536 n }
{
    length_to(n, 65536)
}

#[tactic(auto, unfolding(crate::specs::Numbers::length_of))]
fn length_to(n: i64, top: usize) -> Option<usize>
    ensures { result ≡ length_of top n }
{
    match usize::try_from(n) {
        Ok(m) if m <= top => Some(m),
        _ => None,
    }
}
