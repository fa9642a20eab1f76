// Internal steps 6 and 7 of Algorithm 2.2 (the Note): a, then b, of the scaled problem. Pairs come by a', then b'; SPEC decides the order, a and then b. Where the power of λ is
// not λ⁰, the second interval is at most 1 wide, and at most 2 wide once scaled, and the two agree (`rises`).
ghost use Rattle.std.specs.Prelude.{◌≡◌, true, false, ℕ, ◌*◌, ◌^◌, ◌≤◌, pos, nat_abs, ◌-ℤ◌, ◌*ℤ◌};
ghost use Rattle.line_rows.specs.Row as row;
ghost use Rattle.line_rows.specs.Steps.{solved};
ghost use Rattle.line_steps.specs.Line.{span, bound};
ghost use Rattle.line_steps.specs.Line as line;
ghost use Rattle.line_steps.specs.Narrow.{NotBefore, rows_in};
ghost use Rattle.line_steps.specs.Sized.{Sized, Ends, whole, shifted, scaled, size_of_unit};
ghost use Rattle.line_steps.specs.Scaled.{Near, Before, point_of, back_of, Found};
ghost use Rattle.line_steps.specs.Walk.{InRow, Ready, Begun};

use crate::{BOUND, Digits, Scaled, ends, steps};
use line_rows::Band;
use ring::RootTwo;
use ring_surds::{combined, conjugate, product};

// The greatest digit.
const LAST: u64 = 2 * BOUND;

// The first pair from p on, where p may be one: within a row of pairs the next is found by one test.
pub fn next(c: Scaled, p: Digits) -> Option<Digits>
    requires { Ready c × Near p }
    ensures { Found c p result }
{
    let thin = c.thin;
    let f = c.f;
    let g = c.g;
    if !thin {
        if is_pair(f, g, p) {
            return Some(p);
        }
    }
    onward(c, p)
}

// Whether p is a pair of a problem that is not scaled.
fn is_pair(f: Band, g: Band, p: Digits) -> bool
    requires { Ends scaled f × Ends scaled g × Near p }
    ensures { result ≡ true → solved f g (point_of p) ≡ true }
{
    line_rows::upper(f, g, BOUND, p.a, p.b) && line_rows::lower(f, g, BOUND, p.a, p.b)
}

// The first pair from p on.
pub fn onward(c: Scaled, p: Digits) -> Option<Digits>
    requires { Ready c × Near p }
    ensures { Found c p result }
{
    let q = start(c, p);
    walk(c, p, q)
}

// Internal step 6: where the rows begin that have the pairs from p on.
fn start(c: Scaled, p: Digits) -> Digits
    requires { Ready c × Near p }
    ensures { Begun c p result }
{
    if !c.thin {
        return Digits {
            a: p.a + 1,
            b: p.b + 1,
        };
    }
    let t = c.t;
    let g = c.g;
    let o = c.o;
    let u = c.u;
    let w = row_strip(t, g, o, u, p.a, LAST);
    Digits {
        a: line_rows::first(w, c.half, 2 * c.half),
        b: 0,
    }
}

// The strip of the rows a' of the pairs whose a has a digit from a to b.
fn row_strip(t: Band, g: Band, o: RootTwo, u: RootTwo, a: u64, b: u64) -> Band
    requires { Ends shifted t × Ends scaled g × Sized whole o × Sized size_of_unit u × (a ≤ span) × (b ≤ span) }
    ensures { result ≡ rows_in t g o u (line.coordinate a) (line.coordinate b) }
{
    Band {
        m: 2 * t.m,
        lo: steps::end(u, reach(t.m, o.p, a), t.hi, g.lo),
        hi: steps::end(u, reach(t.m, o.p, b), t.lo, g.hi),
    }
}

// 2m·(a − p), for the coordinate a with the digit t.
fn reach(m: i64, p: i64, t: u64) -> i64
    requires { (nat_abs m ≤ 200) × (nat_abs p ≤ whole) × (t ≤ span) }
    ensures { (result ≡ pos 2 *ℤ m *ℤ (line.coordinate t -ℤ p)) × (nat_abs result ≤ shifted) }
{
    2 * m * (line_rows::coordinate(BOUND, t) - p)
}

// Internal step 7, row by row from the digits q on: the first pair that is not before p.
fn walk(c: Scaled, p: Digits, q: Digits) -> Option<Digits>
    requires { Ready c × Near p × Begun c p q }
    ensures { Found c p result }
{
    let f = c.f;
    let g = c.g;
    let rows = c.rows;
    let half = c.half;
    let top = 2 * half;
    let mut x = q.a;
    let mut y = q.b;
    // A while: a step goes on in its row, or to the next one.
    while x < top {
        let r = in_row(f, g, half, x, y);
        if r < top {
            let z = back(c, x, r);
            if is_before(z, p) {
                y = r + 1;
            } else {
                return Some(Digits {
                    a: ends::past(z.p),
                    b: ends::past(z.q),
                });
            }
        } else {
            x += 1;
            y = 0;
            if !line_rows::below(
                rows,
                RootTwo {
                    p: line_rows::coordinate(half, x),
                    q: 0,
                },
            ) {
                return None;
            }
        }
    }
    None
}

// The first digit of b' from y on that has a pair in the row x, or the number of digits.
fn in_row(f: Band, g: Band, half: u64, x: u64, y: u64) -> u64
    requires { Ends scaled f × Ends scaled g × (half ≤ 2 ^ 32) × (x ≤ 2 * half) × (y ≤ 2 * half) }
    ensures { InRow f g half x y result }
{
    let top = 2 * half;
    let r = least(f, g, half, x, y, top);
    if r < top {
        if line_rows::upper(f, g, half, x, r) {
            return r;
        }
    }
    top
}

// The least digit from y on at which the lower bounds of the row x hold: behind a pair it is y, and no bisection is needed.
fn least(f: Band, g: Band, half: u64, x: u64, y: u64, top: u64) -> u64
    requires { row.Near f g half x top × (y ≤ top) }
    ensures { row.Least (λ (t : ℕ). row.lower f g (row.coordinate half x) (row.coordinate half t)) y top result }
{
    if line_rows::lower(f, g, half, x, y) {
        return y;
    }
    line_rows::least(f, g, half, x, y, top)
}

// Internal step 5 and step 3, back: λ^−n times the pair with the digits x and y, plus α₀.
fn back(c: Scaled, x: u64, y: u64) -> RootTwo
    requires { Sized whole c.o × Sized size_of_unit c.u × (c.half ≤ 2 ^ 32) × (x ≤ 2 * c.half) × (y ≤ 2 * c.half) }
    ensures { result ≡ back_of c (row.pair_at c.half x y) }
{
    let o = c.o;
    let u = c.u;
    let z = product(conjugate(u), line_rows::pair(c.half, x, y));
    let w = combined(1, z, 1, o);
    if c.turned {
        return conjugate(w);
    }
    w
}

// Whether a pair comes before the digits p.
fn is_before(z: RootTwo, p: Digits) -> bool
    requires { Near p × Sized (2 ^ 60) z }
    ensures { (result ≡ true → Before z (point_of p)) × (result ≡ false → NotBefore (point_of p) z) }
{
    let a = line_rows::coordinate(BOUND, p.a);
    let b = line_rows::coordinate(BOUND, p.b);
    if z.p == a {
        return z.q < b;
    }
    z.p < a
}
