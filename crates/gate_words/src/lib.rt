// The words of U and of TUT† in two lent slices: SPEC, "Gate words".
#![tactic(auto)]

ghost use Rattle.std.specs.Prelude.{◌≡◌, true, cond, ◌≤◌, length, take};
ghost use Rattle.gates.specs.Written.{written};
ghost use Rattle.gate_words.specs.Words.{number_of, number, is_second, length_of, answer_to, laid, Spells, Hands};

use gates::Word;
use ring::Point;

// Why there is no word; the numbers are `number_of` of specs/Words.
#[derive(Clone, Copy)]
pub enum Refusal {
    OutOfRange,
    NotUnitary,
    NoRoom,
}

// Which slice holds the word with fewer T, and how long it is.
#[derive(Clone, Copy)]
pub enum Answer {
    First(usize),
    Second(usize),
    Refused(Refusal),
}

// An answer taken apart: its number, 0 if there are words, and the part that it names.
#[derive(Clone, Copy)]
pub struct Part {
    pub number: u8,
    pub second: bool,
    pub len: usize,
}

impl Refusal {
    // The number of SPEC, "Refusals".
    pub fn number(self) -> u8
        ensures { result ≡ number_of self }
    {
        match self {
            Refusal::OutOfRange => refusals::OUT_OF_RANGE,
            Refusal::NotUnitary => refusals::NOT_UNITARY,
            Refusal::NoRoom => refusals::NO_ROOM,
        }
    }
}

impl Answer {
    // The answer taken apart.
    pub fn part(self) -> Part
        ensures { (result.number ≡ number self) × (result.second ≡ is_second self) × (result.len ≡ length_of self) }
    {
        match self {
            Answer::First(n) => Part {
                number: 0,
                second: false,
                len: n,
            },
            Answer::Second(n) => Part {
                number: 0,
                second: true,
                len: n,
            },
            Answer::Refused(why) => Part {
                number: why.number(),
                second: false,
                len: 0,
            },
        }
    }
}

// The word at the front of a slice, if it goes there.
fn lay(out: &mut [u8], w: Word, go: bool)
    requires { (w.len ≤ 128) × (go ≡ true → w.len ≤ length out.old) }
    ensures { out.new ≡ cond go (laid (written w) out.old) out.old }
{
    if go {
        let a = w.letters;
        let n = w.len;
        out[..n].copy_from_slice(&a[..n]);
    }
}

fn decide(fits: bool, v: Word, w: Word) -> Answer
    requires { (v.len ≤ 128) × (w.len ≤ 128) }
    ensures { result ≡ answer_to fits v w }
{
    if !fits {
        return Answer::Refused(Refusal::NoRoom);
    }
    if gates::ts(w) < gates::ts(v) {
        return Answer::Second(w.len);
    }
    Answer::First(v.len)
}

// Both words, each in its slice, and which of them has fewer T; or a refusal, with both slices as they were.
pub fn spell(k: u8, u: Point, t: Point, first: &mut [u8], second: &mut [u8]) -> Answer
    ensures { Spells k u t first.old second.old first.new second.new result }
{
    let scale = record_ranges::scale(k);
    let solves = entry_equation::completes(k, u, t);
    if !scale {
        return Answer::Refused(Refusal::OutOfRange);
    }
    if !solves {
        return Answer::Refused(Refusal::NotUnitary);
    }
    let v = gates::word(k as u32, u, t);
    let w = gates::conjugate_word(k as u32, u, t);
    let f = v.len <= first.len();
    let s = w.len <= second.len();
    let fits = f & s;
    lay(first, v, fits);
    lay(second, w, fits);
    decide(fits, v, w)
}

// The same, with the answer taken apart.
pub fn spell_part(k: u8, u: Point, t: Point, first: &mut [u8], second: &mut [u8]) -> Part
    ensures { Hands k u t first.old second.old first.new second.new result }
{
    let a = spell(k, u, t, first, second);
    a.part()
}

// The first n bytes, or all where there are fewer.
fn front(s: &[u8], n: usize) -> &[u8]
    ensures { (result.now ≡ take n s.now) × (result.ref_ptr ≡ s.entry.ref_ptr) }
{
    &s[..n.min(s.len())]
}

// The part that an answer names, of one of two lent slices.
pub fn chosen<'a>(p: Part, first: &'a [u8], second: &'a [u8]) -> &'a [u8]
    ensures { (result.now ≡ take p.len (cond p.second second.now first.now)) × (result.ref_ptr ≡ cond p.second second.entry.ref_ptr first.entry.ref_ptr) }
{
    let n = p.len;
    let other = p.second;
    if other {
        return front(second, n);
    }
    front(first, n)
}
