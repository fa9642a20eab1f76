// Reading: the number at a place, and the places where a run of spaces or a line ends.
#![tactic(auto)]

ghost use Rattle.std.specs.Prelude.{ℕ, ◌+◌, ◌^◌, ◌≤◌, min, ◌≡◌, pos, neg_ℤ};
ghost use Rattle.integers_wide.specs.Meaning.{size_of};
ghost use Rattle.text_scan.specs.Run.{end_of_run, is_byte, spaces_from, word_end, line_end};
ghost use Rattle.text_scan.specs.Number.{is_digit, digits_at, with_digit, value_of, spelling, fitted, read_of, wide_read_of, spelled_of, number_from, number_at};

use integers_wide::{Size, Wide};

// A number's value with the place after it, or no number that fits one word.
#[derive(Clone, Copy)]
pub enum Number {
    Value(i64, usize),
    Bad,
}

// A number's value with the place after it, or no number that fits two words.
#[derive(Clone, Copy)]
pub enum WideNumber {
    Value(Wide, usize),
    Bad,
}

// The value of a run of digits, above 2^127 any that is, and the place after it.
#[derive(Clone, Copy)]
struct Digits {
    value: Size,
    end: usize,
}

// A minus or not, the value of the digits and the place after them; or no digit.
#[derive(Clone, Copy)]
enum Spelled {
    Digits(bool, Size, usize),
    Nothing,
}

// The number at a place: an optional '-' and the longest run of digits, at least one.
pub fn number_at(s: &[u8], at: usize) -> Number
    ensures { read_of result ≡ number_at (2 ^ 63) s.now at }
{
    let n = spelled_at(s, at);
    match n {
        Spelled::Digits(minus, size, end) => short(minus, size, end),
        Spelled::Nothing => Number::Bad,
    }
}

// The same for a number of two words.
pub fn wide_number_at(s: &[u8], at: usize) -> WideNumber
    ensures { wide_read_of result ≡ number_at (2 ^ 127) s.now at }
{
    let n = spelled_at(s, at);
    match n {
        Spelled::Digits(minus, size, end) => wide(minus, size, end),
        Spelled::Nothing => WideNumber::Bad,
    }
}

// The first place at or after `at` that holds no space, or the length; past the end, `at`.
pub fn spaces_from(s: &[u8], at: usize) -> usize
    ensures { result ≡ spaces_from s.now at }
{
    run_end(s, at, b' ', true)
}

// The first place at or after `at` that holds a space, or the length; past the end, `at`.
pub fn word_end(s: &[u8], at: usize) -> usize
    ensures { result ≡ word_end s.now at }
{
    run_end(s, at, b' ', false)
}

// The first place at or after `at` that holds a line feed, or the length; past the end, `at`.
pub fn line_end(s: &[u8], at: usize) -> usize
    ensures { result ≡ line_end s.now at }
{
    run_end(s, at, b'\n', false)
}

// The place after the run of bytes from `at` on that are b, or that are not.
pub fn run_end(s: &[u8], at: usize, b: u8, same: bool) -> usize
    ensures { result ≡ end_of_run (is_byte b same) s.now at }
{
    for i in at..s.len() {
        if (s[i] == b) != same {
            return i;
        }
    }
    at.max(s.len())
}

// Sign and digits at a place, for numbers of every size up to two words.
fn spelled_at(s: &[u8], at: usize) -> Spelled
    ensures { (top : ℕ) → top ≤ 2 ^ 127 → fitted top (spelled_of result) ≡ number_at top s.now at }
{
    if at < s.len() && s[at] == b'-' {
        spelled_from(true, s, at + 1)
    } else {
        spelled_from(false, s, at)
    }
}

// The digits that begin at `at`, with a minus before them or not.
fn spelled_from(minus: bool, s: &[u8], at: usize) -> Spelled
    ensures { (top : ℕ) → top ≤ 2 ^ 127 → fitted top (spelled_of result) ≡ number_from top minus s.now at }
{
    let d = digits_from(s, at);
    let end = d.end;
    let size = d.value;
    if end == at {
        Spelled::Nothing
    } else {
        Spelled::Digits(minus, size, end)
    }
}

// The run of digits from `at` on.
fn digits_from(s: &[u8], at: usize) -> Digits
    ensures { (min (size_of result.value) (2 ^ 127 + 1) ≡ min (value_of (digits_at s.now at)) (2 ^ 127 + 1)) × (result.end ≡ end_of_run is_digit s.now at) }
{
    let mut value = Size { hi: 0, lo: 0 };
    for end in at..s.len() {
        let b = s[end];
        if b < b'0' || b'9' < b {
            return Digits { value, end };
        }
        value = grown(value, b);
    }
    Digits {
        value,
        end: at.max(s.len()),
    }
}

// A value with one more digit; above 2^127 any that is.
fn grown(value: Size, b: u8) -> Size
    requires { (48 ≤ b) × (b ≤ 57) }
    ensures { min (size_of result) (2 ^ 127 + 1) ≡ min (with_digit (size_of value) b) (2 ^ 127 + 1) }
{
    if 0x0fff_ffff_ffff_ffff < value.hi {
        return Size {
            hi: u64::MAX,
            lo: u64::MAX,
        };
    }
    let d = u64::from(b - b'0');
    let low = Size::product(value.lo, 10);
    let hi = value.hi * 10 + low.hi;
    let room = u64::MAX - d;
    if low.lo <= room {
        Size { hi, lo: low.lo + d }
    } else {
        Size {
            hi: hi + 1,
            lo: low.lo - room - 1,
        }
    }
}

// A number with its sign, where it fits one word.
fn short(minus: bool, n: Size, end: usize) -> Number
    ensures { read_of result ≡ fitted (2 ^ 63) (spelling minus (size_of n) end) }
{
    if n.hi == 0 {
        signed(minus, n.lo, end)
    } else {
        Number::Bad
    }
}

fn signed(minus: bool, n: u64, end: usize) -> Number
    ensures { read_of result ≡ fitted (2 ^ 63) (spelling minus n end) }
{
    if minus {
        if n <= 0x8000_0000_0000_0000 {
            Number::Value(negative(n), end)
        } else {
            Number::Bad
        }
    } else {
        if n < 0x8000_0000_0000_0000 {
            Number::Value(n as i64, end)
        } else {
            Number::Bad
        }
    }
}

// 0 - n, which fits also where n is 2^63.
fn negative(n: u64) -> i64
    requires { n ≤ 2 ^ 63 }
    ensures { result ≡ neg_ℤ (pos n) }
{
    (-i128::from(n)) as i64
}

// A number with its sign, where it fits two words.
fn wide(minus: bool, n: Size, end: usize) -> WideNumber
    ensures { wide_read_of result ≡ fitted (2 ^ 127) (spelling minus (size_of n) end) }
{
    if n.hi < 0x8000_0000_0000_0000 {
        return WideNumber::Value(Wide::signed(minus, n), end);
    }
    if !minus {
        return WideNumber::Bad;
    }
    if 0x8000_0000_0000_0000 < n.hi {
        return WideNumber::Bad;
    }
    if 0 < n.lo {
        return WideNumber::Bad;
    }
    WideNumber::Value(
        Wide {
            hi: -9223372036854775808,
            lo: 0,
        },
        end,
    )
}
