// The sign of p + q√2, without a product, for numbers of one word and of two: the same text at every width. The promise is one, `Signs` over ℤ; `wide_sign_of` keeps it for numbers of two
// words, and the functions of one word are instances of it, for callers whose numbers fit.
#![tactic(auto)]

ghost use Rattle.std.specs.Prelude.{◌≡◌, ◌<◌, ◌^◌};
ghost use Rattle.ring.specs.Sign.{Signs, gap_sign, opposite, turn, of_part, RootNear};

use ring::Sign;

mod wide;

pub use wide::wide_sign_of;

// The sign of p + q√2, for every p and q.
pub fn sign_of(p: i64, q: i64) -> Sign
    ensures { Signs p q result }
{
    let a = p.unsigned_abs();
    let b = q.unsigned_abs();
    match (0 <= p, 0 <= q) {
        (true, true) if a == 0 && b == 0 => Sign::Zero,
        (true, true) => Sign::Plus,
        (true, false) => gap_sign(a, b),
        (false, true) => turned(gap_sign(a, b)),
        (false, false) => Sign::Minus,
    }
}

// The same answer, sooner where p + q√2 is near 0 beside p: most sizes are told apart by a bound of √2 to 30 places.
pub fn near_sign_of(p: i64, q: i64) -> Sign
    ensures { Signs p q result }
{
    let a = p.unsigned_abs();
    let b = q.unsigned_abs();
    if 4611686018427387904 <= b {
        return sign_of(p, q);
    }
    let r = root_times(b);
    if a < r {
        return sign_of_part(q);
    }
    if r + b / 1073741824 + 2 <= a {
        return sign_of_part(p);
    }
    sign_of(p, q)
}

// At most b√2, and near it: √2 − 1 is 444758425/2^30 and a little more.
fn root_times(b: u64) -> u64
    requires { b < 2 ^ 62 }
    ensures { RootNear b result }
{
    b + b / 1073741824 * 444758425 + b % 1073741824 * 444758425 / 1073741824
}

// The sign of a number other than 0.
fn sign_of_part(z: i64) -> Sign
    ensures { result ≡ of_part z }
{
    if 0 <= z { Sign::Plus } else { Sign::Minus }
}

pub(crate) fn turned(s: Sign) -> Sign
    ensures { result ≡ opposite s }
{
    match s {
        Sign::Minus => Sign::Plus,
        Sign::Zero => Sign::Zero,
        Sign::Plus => Sign::Minus,
    }
}

// The sign of a − b√2. With e = x − y below y, x − y√2 has the sign of (y − e) − e√2, turned: a round takes y to less than half.
pub(crate) fn gap_sign(a: u64, b: u64) -> Sign
    ensures { result ≡ gap_sign a b }
{
    let mut x = a;
    let mut y = b;
    let mut odd = false;
    // A while: the step is a round, as Euclid's are.
    while y < x {
        let e = x - y;
        if y <= e {
            return plus(odd);
        }
        x = y - e;
        y = e;
        odd = !odd;
    }
    if y == 0 {
        return Sign::Zero;
    }
    plus(!odd)
}

// Plus, or minus where turned an odd number of times.
pub(crate) fn plus(odd: bool) -> Sign
    ensures { result ≡ turn odd Sign.Plus }
{
    if odd { Sign::Minus } else { Sign::Plus }
}
