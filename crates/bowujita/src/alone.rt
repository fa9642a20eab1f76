// Signs, exponents, pulses, words, first columns and line problems: calls without a session.
ghost use Rattle.std.specs.Prelude.{◌≡◌};
ghost use Rattle.integers_wide.specs.Meaning.{meaning};
ghost use Rattle.ring.specs.Sign.{sign_number};
ghost use Rattle.ring.specs.Point.Exponent.{exponent_of, pulse_count};
ghost use Rattle.library_numbers.specs.Numbers.{point_of};
ghost use Rattle.bowujita.specs.Alone.{wide_of, entry_place, line_place, Entered, Lined, Spelled};

use library_calls::alone;
use library_calls::alone::{Handed, Three, TwoWords, Word};
use library_numbers::Four;
use ring::Sign;

// The sign of p + q√2: −1, 0 or 1.
pub fn bowujita_sign(p: i64, q: i64) -> i32
    ensures { result ≡ sign_number p q }
{
    let s = ring_signs::sign_of(p, q);
    match s {
        Sign::Minus => -1,
        Sign::Zero => 0,
        Sign::Plus => 1,
    }
}

// The same for numbers of two words.
pub fn bowujita_wide_sign(p: TwoWords, q: TwoWords) -> i32
    ensures { result ≡ sign_number (meaning (wide_of p)) (meaning (wide_of q)) }
{
    let s = ring_signs::wide_sign_of(alone::wide(p), alone::wide(q));
    match s {
        Sign::Minus => -1,
        Sign::Zero => 0,
        Sign::Plus => 1,
    }
}

// The exponent e of v/√2^k.
pub fn bowujita_exponent(v: Four, k: u8) -> u32
    ensures { result ≡ exponent_of k (point_of v) }
{
    let p = library_numbers::point_of(v);
    p.exponent(k)
}

// The pulse count of exponent e.
pub fn bowujita_pulses(e: u32) -> u64
    ensures { result ≡ pulse_count e }
{
    ring::pulse_count(e)
}

// The words of U and of TUT†.
pub fn bowujita_words(k: u8, u: Four, t: Four, first: &mut [u8], second: &mut [u8]) -> Word
    ensures { Spelled k u t first.old second.old first.new second.new result }
{
    let p = gate_words::spell_part(
        k,
        library_numbers::point_of(u),
        library_numbers::point_of(t),
        first,
        second,
    );
    Word {
        number: p.number,
        second: library_numbers::flag(p.second),
        length: p.len,
    }
}

// All t that make a first column with u, after a place; from the beginning where `after` is 0.
pub fn bowujita_entry(k: u8, u: Four, after: u8, place: Four, out: &mut [i32]) -> Handed
    ensures { Entered k u (entry_place after place) out.old out.new result }
{
    let a = entry::hand_out(
        k,
        library_numbers::point_of(u),
        alone::entry_place(after, place),
        out,
    );
    match a {
        entry::Answer::Handed(n, end) => alone::counted(n, end),
        entry::Answer::Refused => alone::refused(),
    }
}

// The pairs of a line problem, after a place; from the beginning where `after` is 0.
pub fn bowujita_line(
    first: Three,
    second: Three,
    after: u8,
    a: i32,
    b: i32,
    out: &mut [i32],
) -> Handed
    ensures { Lined first second (line_place after a b) out.old out.new result }
{
    let x = line::pairs(
        alone::interval_of(first),
        alone::interval_of(second),
        alone::line_place(after, a, b),
        out,
    );
    match x {
        line::Answer::Handed(n, end) => alone::counted(n, end),
        line::Answer::Refused => alone::refused(),
    }
}
