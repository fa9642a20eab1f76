// The decimal digits of numbers of two 64-bit words.
ghost use Rattle.std.specs.Prelude.{◌/◌, ◌%◌, ◌≤◌, ◌≡◌, leb, length, drop};
ghost use Rattle.text.specs.Decimal.{decimal};
ghost use Rattle.integers_wide.specs.Meaning.{size_of};
ghost use Rattle.text.specs.Written.{written, after};

use crate::write::put_bytes;
use integers_wide::Size;

// A tenth of a number, rounded down, and its last digit.
#[derive(Clone, Copy)]
struct Tenth {
    quotient: Size,
    digit: u8,
}

// The decimal digits of n, and the place after them.
pub fn put_wide(out: &mut [u8], at: usize, n: Size) -> usize
    ensures { (out.new ≡ written out.old at (decimal (size_of n))) × (result ≡ after out.old at (decimal (size_of n))) }
{
    let mut digits = [0u8; 39];
    let first = spell(n, &mut digits);
    put_bytes(out, at, &digits[first..])
}

// The decimal digits of n at the end of digits, and the place of the first.
fn spell(n: Size, digits: &mut [u8]) -> usize
    requires { length digits.old ≡ 39 }
    ensures { (result ≤ 39) × (drop result digits.new ≡ decimal (size_of n)) }
{
    let mut i = 39;
    let mut rest = n;
    // A while: it ends at the number's first digit, not at a place.
    while has_tens(rest) {
        let t = divided(rest);
        i -= 1;
        digits[i] = b'0' + t.digit;
        rest = t.quotient;
    }
    i -= 1;
    digits[i] = b'0' + rest.lo as u8;
    i
}

// Whether a number has more than one digit.
fn has_tens(n: Size) -> bool
    ensures { result ≡ leb 10 (size_of n) }
{
    0 < n.hi || 10 <= n.lo
}

fn divided(n: Size) -> Tenth
    ensures { (size_of result.quotient ≡ size_of n / 10) × (result.digit ≡ size_of n % 10) }
{
    let upper = n.hi % 10 * 0x1_0000_0000 + n.lo / 0x1_0000_0000;
    let lower = upper % 10 * 0x1_0000_0000 + n.lo % 0x1_0000_0000;
    let quotient = Size {
        hi: n.hi / 10,
        lo: upper / 10 * 0x1_0000_0000 + lower / 10,
    };
    Tenth {
        quotient,
        digit: (lower % 10) as u8,
    }
}
