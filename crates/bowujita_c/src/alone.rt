// Signs, exponents, pulses, words, first columns and line problems: calls without a session.
ghost use Rattle.std.specs.Prelude.{◌≡◌};
ghost use Rattle.integers_wide.specs.Meaning.{meaning};
ghost use Rattle.ring.specs.Sign.{sign_number};
ghost use Rattle.ring.specs.Point.Exponent.{exponent_of, pulse_count};
ghost use Rattle.library_numbers.specs.Numbers.{point_of};
ghost use Rattle.bowujita.specs.Alone.{wide_of, entry_place, line_place, Entered, Lined, Spelled};

use bowujita::alone;
use library_calls::alone::{Handed, Three, TwoWords, Word};
use library_numbers::Four;

// The sign of p + q√2: −1, 0 or 1.
#[unsafe(no_mangle)]
pub extern "C" fn bowujita_sign(p: i64, q: i64) -> i32
    ensures { result ≡ sign_number p q }
{
    alone::bowujita_sign(p, q)
}

// The same for numbers of two words.
#[unsafe(no_mangle)]
pub extern "C" fn bowujita_wide_sign(p: TwoWords, q: TwoWords) -> i32
    ensures { result ≡ sign_number (meaning (wide_of p)) (meaning (wide_of q)) }
{
    alone::bowujita_wide_sign(p, q)
}

// The exponent e of v/√2^k.
#[unsafe(no_mangle)]
pub extern "C" fn bowujita_exponent(v: Four, k: u8) -> u32
    ensures { result ≡ exponent_of k (point_of v) }
{
    alone::bowujita_exponent(v, k)
}

// The pulse count of exponent e.
#[unsafe(no_mangle)]
pub extern "C" fn bowujita_pulses(e: u32) -> u64
    ensures { result ≡ pulse_count e }
{
    alone::bowujita_pulses(e)
}

// The words of U and of TUT†.
#[unsafe(no_mangle)]
pub extern "C" fn bowujita_words(
    k: u8,
    u: Four,
    t: Four,
    first: &mut [u8],
    second: &mut [u8],
) -> Word
    ensures { Spelled k u t first.old second.old first.new second.new result }
{
    alone::bowujita_words(k, u, t, first, second)
}

// All t that make a first column with u, after a place; from the beginning where `after` is 0.
#[unsafe(no_mangle)]
pub extern "C" fn bowujita_entry(k: u8, u: Four, after: u8, place: Four, out: &mut [i32]) -> Handed
    ensures { Entered k u (entry_place after place) out.old out.new result }
{
    alone::bowujita_entry(k, u, after, place, out)
}

// The pairs of a line problem, after a place; from the beginning where `after` is 0.
#[unsafe(no_mangle)]
pub extern "C" fn bowujita_line(
    first: Three,
    second: Three,
    after: u8,
    a: i32,
    b: i32,
    out: &mut [i32],
) -> Handed
    ensures { Lined first second (line_place after a b) out.old out.new result }
{
    alone::bowujita_line(first, second, after, a, b, out)
}
