// Units of Z[√2] that balance two strips: multiplication by (3 + 2√2)^n widens the one and narrows the other, so that rows are few.
ghost use Rattle.std.specs.Prelude.{◌≡◌, true};
ghost use Rattle.ring.specs.RootTwo.Sized.{Sized};
ghost use Rattle.line_rows.specs.Steps.{times_of};
ghost use Rattle.question_strips.specs.Strips.{end_size, Ends};
ghost use Rattle.question_strips.specs.Units.{Unit, scaled_of};

use crate::Strips;
use crate::reach::near_root;
use line_rows::Band;
use ring::RootTwo;
use ring_surds::{combined, conjugate, product};

// The greatest part of an end.
const LARGEST: u64 = 137438953472;

// (3 + 2√2)^n for n up to 7, and the last one past it.
pub fn unit(n: u64) -> RootTwo
    ensures { Unit result }
{
    match n {
        0 => RootTwo { p: 1, q: 0 },
        1 => RootTwo { p: 3, q: 2 },
        2 => RootTwo { p: 17, q: 12 },
        3 => RootTwo { p: 99, q: 70 },
        4 => RootTwo { p: 577, q: 408 },
        5 => RootTwo { p: 3363, q: 2378 },
        6 => RootTwo { p: 19601, q: 13860 },
        _ => RootTwo {
            p: 114243,
            q: 80782,
        },
    }
}

// How many times a grows by 3 + 2√2 and b shrinks by it until a is about b: the quotient falls by 34 a step.
fn steps(a: u64, b: u64) -> u64 {
    let mut x = b / 6;
    for n in 0..7 {
        if x <= a {
            return n;
        }
        x /= 34;
    }
    7
}

// About 1024 times hi − lo, over m.
pub fn width(s: Band) -> u64
    requires { Ends s }
{
    let d = combined(1, s.hi, -1, s.lo);
    integers::abs(d.p + near_root(d.q)) * 1024 / integers::abs(s.m)
}

// The unit that balances two strips.
pub fn balance(s: Strips) -> RootTwo
    requires { Ends s.first × Ends s.second }
    ensures { Unit result }
{
    let a = width(s.first);
    let b = width(s.second);
    if a < b {
        unit(steps(a, b))
    } else {
        conjugate(unit(steps(b, a)))
    }
}

fn times(s: Band, u: RootTwo) -> Band
    requires { Ends s × Unit u }
    ensures { result ≡ times_of s u }
{
    Band {
        m: s.m,
        lo: product(u, s.lo),
        hi: product(u, s.hi),
    }
}

// The strips of u·ζ and of its conjugate.
pub fn scaled(s: Strips, u: RootTwo) -> Strips
    requires { Ends s.first × Ends s.second × Unit u }
    ensures { result ≡ scaled_of s u }
{
    let f = s.first;
    let g = s.second;
    Strips {
        first: times(f, u),
        second: times(g, conjugate(u)),
    }
}

fn is_short(x: RootTwo) -> bool
    ensures { result ≡ true → Sized end_size end_size x }
{
    integers::abs(x.p) <= LARGEST && integers::abs(x.q) <= LARGEST
}

fn has_short_ends(s: Band) -> bool
    ensures { result ≡ true → Sized end_size end_size s.lo × Sized end_size end_size s.hi }
{
    is_short(s.lo) && is_short(s.hi)
}

// Whether both strips are within the sizes of a search.
pub fn fits(s: Strips) -> bool
    ensures { result ≡ true → (Sized end_size end_size s.first.lo × Sized end_size end_size s.first.hi) × (Sized end_size end_size s.second.lo × Sized end_size end_size s.second.hi) }
{
    has_short_ends(s.first) && has_short_ends(s.second)
}
