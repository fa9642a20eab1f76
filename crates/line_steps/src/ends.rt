// An interval as a strip, its ends divided by n, and the row from which on all pairs stand.
ghost use Rattle.std.specs.Prelude.{◌≡◌, ◌*◌};
ghost use Rattle.line_steps.specs.Line.{bound};
ghost use Rattle.line_steps.specs.Strips.{strip_of, Ranged};
ghost use Rattle.line_steps.specs.Ends.{Divided, floor_of};
ghost use Rattle.line_steps.specs.Bounds.{first_row};
ghost use Rattle.line_steps.specs.Past.{past_of};

use crate::{BOUND, Interval, SPAN};
use line_rows::Band;
use ring::RootTwo;

// The highest coordinate, and the lowest.
const HIGHEST: i64 = BOUND as i64;

const LOWEST: i64 = -HIGHEST;

// An interval as a strip.
pub fn strip(i: Interval) -> Band
    ensures { result ≡ strip_of i }
{
    Band {
        m: i.n as i64,
        lo: RootTwo {
            p: i.lo as i64,
            q: 0,
        },
        hi: RootTwo {
            p: i.hi as i64,
            q: 0,
        },
    }
}

// How many of the coordinates lie below z.
pub fn past(z: i64) -> u64
    ensures { result ≡ past_of z }
{
    if z < LOWEST {
        return 0;
    }
    if HIGHEST < z {
        return SPAN;
    }
    (z + HIGHEST) as u64
}

// ⌊x/n⌋ + 10,000.
pub(crate) fn floor(n: i64, x: i64) -> u64
    requires { Divided (2 * bound) n x }
    ensures { result ≡ floor_of n x }
{
    (x + HIGHEST * n) as u64 / n as u64
}

// No pair stands in a row before this one.
pub fn first_row(s: Band, t: Band) -> u64
    requires { Ranged s × Ranged t }
    ensures { result ≡ first_row s t }
{
    (floor(s.m, s.lo.p) + floor(t.m, t.lo.p)) / 2
}
