// A row of a line problem: the b with lo ≤ m·z ≤ hi in two bands, z = a + b√2 in the first and a − b√2 in the second, for a given a.
#![tactic(auto)]

ghost use Rattle.std.specs.Prelude.{◌≡◌, ℕ, ◌^◌, ◌≤◌, nat_abs};
ghost use Rattle.ring.specs.RootTwo.Sized.{Sized};
ghost use Rattle.line_rows.specs.Row.{coordinate, pair_at, above, below, bounded, lower, upper, Small, Near, Least, First};

use ring::RootTwo;
use ring_surds::{conjugate, is_nonneg, offset};

// lo ≤ m·z ≤ hi.
#[derive(Clone, Copy)]
pub struct Band {
    pub m: i64,
    pub lo: RootTwo,
    pub hi: RootTwo,
}

// Whether lo ≤ m·z.
fn above(s: Band, z: RootTwo) -> bool
    requires { Small s × Sized (2 ^ 41) (2 ^ 41) z }
    ensures { result ≡ above s z }
{
    is_nonneg(offset(s.m, z, 1, s.lo))
}

// Whether m·z ≤ hi.
pub fn below(s: Band, z: RootTwo) -> bool
    requires { Small s × Sized (2 ^ 41) (2 ^ 41) z }
    ensures { result ≡ below s z }
{
    is_nonneg(offset(1, s.hi, s.m, z))
}

// Whether z is not below the one band, and w not above the other.
fn bounded(s: Band, t: Band, z: RootTwo, w: RootTwo) -> bool
    requires { Small s × Small t × Sized (2 ^ 41) (2 ^ 41) z × Sized (2 ^ 41) (2 ^ 41) w }
    ensures { result ≡ bounded s t z w }
{
    above(s, z) && below(t, w)
}

// The coordinate with the digit t, where the digit h is that of 0.
pub fn coordinate(h: u64, t: u64) -> i64
    requires { (h ≤ 2 ^ 40) × (t ≤ 2 ^ 40) }
    ensures { (result ≡ coordinate h t) × (nat_abs result ≤ 2 ^ 41) }
{
    t as i64 - h as i64
}

// The pair with the digits x and y.
pub fn pair(h: u64, x: u64, y: u64) -> RootTwo
    requires { (h ≤ 2 ^ 40) × (x ≤ 2 ^ 40) × (y ≤ 2 ^ 40) }
    ensures { (result ≡ pair_at h x y) × Sized (2 ^ 41) (2 ^ 41) result }
{
    RootTwo {
        p: coordinate(h, x),
        q: coordinate(h, y),
    }
}

// Whether the digits x and y meet the bounds that a larger y meets as well.
pub fn lower(first: Band, second: Band, h: u64, x: u64, y: u64) -> bool
    requires { Near first second h x y }
    ensures { result ≡ lower first second (coordinate h x) (coordinate h y) }
{
    let z = pair(h, x, y);
    bounded(first, second, z, conjugate(z))
}

// Whether they meet the other bounds.
pub fn upper(first: Band, second: Band, h: u64, x: u64, y: u64) -> bool
    requires { Near first second h x y }
    ensures { result ≡ upper first second (coordinate h x) (coordinate h y) }
{
    let z = pair(h, x, y);
    bounded(second, first, conjugate(z), z)
}

// The least digit from y on at which the lower bounds hold, or top where there is none below top.
pub fn least(first: Band, second: Band, h: u64, x: u64, y: u64, top: u64) -> u64
    requires { Near first second h x top × (y ≤ top) }
    ensures { Least (λ (t : ℕ). lower first second (coordinate h x) (coordinate h t)) y top result }
{
    let mut lo = y;
    let mut hi = top;
    // A while: a bisection, whose steps are not one.
    while lo < hi {
        let mid = lo + (hi - lo) / 2;
        if lower(first, second, h, x, mid) {
            hi = mid;
        } else {
            lo = mid + 1;
        }
    }
    hi
}

// The first digit t with lo ≤ m·(t − h), or top, by bisection.
pub fn first(s: Band, h: u64, top: u64) -> u64
    requires { Small s × (h ≤ 2 ^ 40) × (top ≤ 2 ^ 40) }
    ensures { First h top s result }
{
    let mut lo = 0;
    let mut hi = top;
    // A while, as in `least`.
    while lo < hi {
        let mid = lo + (hi - lo) / 2;
        if above(
            s,
            RootTwo {
                p: coordinate(h, mid),
                q: 0,
            },
        ) {
            hi = mid;
        } else {
            lo = mid + 1;
        }
    }
    hi
}
