// The problem that Algorithm 2.2 (the Note) makes of two intervals before it counts a and b: shift, then scale. A step's number is the text's; "internal" are the steps of its second list.
ghost use Rattle.std.specs.Prelude.{◌≡◌, Bool, true, false, ◌*◌, ◌+◌, ◌≤◌, pos};
ghost use Rattle.line_rows.specs.Row.{at};
ghost use Rattle.line_steps.specs.Line.{accepted};
ghost use Rattle.line_steps.specs.Strips.{Ranged};
ghost use Rattle.line_steps.specs.Narrow.{Wide};
ghost use Rattle.line_steps.specs.Sized.{Sized, Ends, whole, scaled};
ghost use Rattle.line_steps.specs.Scaled.{half_of, rows_band, Stepped};
ghost use Rattle.line_steps.specs.Turns.{Turns};

use crate::{BOUND, Interval, Scaled, ends, steps};
use line_rows::Band;
use ring::RootTwo;
use ring_surds::{combined, conjugate};

// The digit of 0 in a scaled problem, and in one that is not scaled.
const HALF: u64 = 4294967296;

const NEAR: u64 = BOUND + 1;

// The greatest distance of two coordinates.
const APART: u64 = 2 * BOUND;

// Internal step 2, the sides exchanged: either interval may be the thin one, and a pair and its conjugate have the same a.
pub fn reduced(first: Interval, second: Interval) -> Scaled
    requires { accepted first second ≡ true }
    ensures { Turns first second result }
{
    let s = ends::strip(first);
    let t = ends::strip(second);
    if steps::is_thin(t) {
        return stepped(s, t, true, false);
    }
    if steps::is_thin(s) {
        return stepped(t, s, true, true);
    }
    stepped(s, t, false, false)
}

// The steps in the text's order. Where no side is thin, so few rows lie between two pairs that going through them is as quick: there α₀ is 0 and the power of λ is λ⁰.
fn stepped(s: Band, t: Band, thin: bool, turned: bool) -> Scaled
    requires { Ranged s × Ranged t × Ends whole s × Ends whole t }
    ensures { Stepped s t thin turned result }
{
    let o = alpha0(s, t, thin);
    let y = steps::shift(s, o);
    let x = steps::shift(t, conjugate(o));
    let u = steps::unit(x, thin);
    let f = steps::scale(y, u);
    let g = steps::scale(x, conjugate(u));
    let rows = rows_of(f, g);
    let half = half(thin);
    Scaled {
        thin: thin,
        turned: turned,
        half: half,
        o: o,
        u: u,
        t: x,
        f: f,
        g: g,
        rows: rows,
    }
}

// Step 2: α₀ = a₀ + b₀√2 of Lemma 2.3, a₀ = ⌊(I_l + J_l)/2⌋ and b₀ near (I_l − J_l)/√8, the ends rounded first; or 0.
fn alpha0(s: Band, t: Band, thin: bool) -> RootTwo
    requires { Ranged s × Ranged t }
    ensures { Sized whole result × (thin ≡ false → result ≡ at (pos 0) (pos 0)) }
{
    if !thin {
        return RootTwo { p: 0, q: 0 };
    }
    let f = ends::floor(s.m, s.lo.p);
    let g = ends::floor(t.m, t.lo.p);
    RootTwo {
        p: line_rows::coordinate(BOUND, (f + g) / 2),
        q: line_rows::coordinate(7071, (f + APART - g) * 70 / 198),
    }
}

// Internal step 6: a_min ≤ a ≤ a_max, as a band of whole numbers.
fn rows_of(f: Band, g: Band) -> Band
    requires { Ends scaled f × Ends scaled g }
    ensures { result ≡ rows_band f g }
{
    Band {
        m: 2 * f.m * g.m,
        lo: combined(g.m, f.lo, f.m, g.lo),
        hi: combined(g.m, f.hi, f.m, g.hi),
    }
}

// The digit of 0.
fn half(thin: bool) -> u64
    ensures { result ≡ half_of thin }
{
    if thin { HALF } else { NEAR }
}
