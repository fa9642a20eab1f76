// The sign of p + q√2 for numbers of two 64-bit words: the rounds of `gap_sign`, until one word is enough.
ghost use Rattle.std.specs.Prelude.{◌≡◌};
ghost use Rattle.integers_wide.specs.Meaning.{meaning, size_of};
ghost use Rattle.ring.specs.Sign.{Signs, gap_sign, turn};
ghost use Rattle.ring.specs.Short.{both_short};

use crate::{gap_sign, plus, turned};
use integers_wide::{Size, Wide};
use ring::Sign;

// The sign of p + q√2, for every p and q of two words.
pub fn wide_sign_of(p: Wide, q: Wide) -> Sign
    ensures { Signs (meaning p) (meaning q) result }
{
    let a = p.size();
    let b = q.size();
    match (p.is_nonneg(), q.is_nonneg()) {
        (true, true) if a.is_zero() && b.is_zero() => Sign::Zero,
        (true, true) => Sign::Plus,
        (true, false) => wide_gap_sign(a, b),
        (false, true) => turned(wide_gap_sign(a, b)),
        (false, false) => Sign::Minus,
    }
}

// Whether two numbers have one word each.
fn are_short(x: Size, y: Size) -> bool
    ensures { result ≡ both_short x y }
{
    x.hi == 0 && y.hi == 0
}

// The sign of a − b√2.
fn wide_gap_sign(a: Size, b: Size) -> Sign
    ensures { result ≡ gap_sign (size_of a) (size_of b) }
{
    let mut x = a;
    let mut y = b;
    let mut odd = false;
    // A while: the step is a round. The rounds stand at both widths, since those of one word are the faster ones.
    while !are_short(x, y) {
        if !y.is_below(x) {
            return plus(!odd);
        }
        let e = x.less(y);
        if !e.is_below(y) {
            return plus(odd);
        }
        x = y.less(e);
        y = e;
        odd = !odd;
    }
    flipped(odd, gap_sign(x.lo, y.lo))
}

fn flipped(odd: bool, s: Sign) -> Sign
    ensures { result ≡ turn odd s }
{
    if odd { turned(s) } else { s }
}
