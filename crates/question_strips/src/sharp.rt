// How far a region in a disk about 0 reaches in a direction (u, v) of Z[√2]: no farther than a whole direction near (u, v) says. A unit makes the direction long first, so
// that little is lost. Which unit is free.
ghost use Rattle.std.specs.Prelude.{◌≡◌, true, ◌^◌, ◌≤◌, pos, nat_abs, ◌+ℤ◌, ◌*ℤ◌};
ghost use Rattle.ring.specs.RootTwo.Sized.{Sized};
ghost use Rattle.region.specs.Region.{accepted};
ghost use Rattle.region.specs.ReachOver.{Bounds};
ghost use Rattle.region.specs.Enclosure.{InDisk};
ghost use Rattle.question_strips.specs.Units.{Unit};
ghost use Rattle.question_strips.specs.Reach.{reach_size, Direction, Reaches};
ghost use Rattle.question_strips.specs.Sharp.{Near, Either};

use crate::reach::near_root;
use crate::units;
use plane_estimates::near;
use region::Region;
use ring::RootTwo;
use ring_surds::{combined, conjugate, is_nonneg, product};

// A whole number near x.
fn rounded(x: RootTwo) -> i64
    requires { Sized (2 ^ 27) (2 ^ 27) x }
    ensures { nat_abs result ≤ 2 ^ 30 }
{
    x.p + near_root(x.q)
}

// Whether x is at most 1 from f, and short enough for a direction.
fn is_near(f: RootTwo, x: i64) -> bool
    requires { Sized (2 ^ 27) (2 ^ 27) f × (nat_abs x ≤ 2 ^ 30) }
    ensures { result ≡ true → Near f x }
{
    if 16000 < integers::abs(x) {
        return false;
    }
    if is_nonneg(RootTwo {
        p: f.p + 1 - x,
        q: f.q,
    }) {
        is_nonneg(RootTwo {
            p: x + 1 - f.p,
            q: -f.q,
        })
    } else {
        false
    }
}

// How many times a direction can be made longer by 3 + 2√2, where its greater part is about m and the disk's radius n.
fn steps(n: u16, m: u64) -> u64 {
    let a = near::product(n as u64, m);
    if a <= 30 && m <= 13 {
        4
    } else if a <= 1000 && m <= 80 {
        3
    } else if a <= 34000 && m <= 470 {
        2
    } else {
        1
    }
}

// The bound in a whole direction.
fn whole(region: Region, u: i64, v: i64) -> i64
    requires { (accepted region ≡ true) × (nat_abs u ≤ 16000) × (nat_abs v ≤ 16000) }
    ensures { Bounds region u v result }
{
    region_extent::bound(region, u as i16, v as i16)
}

// b + 2n.
fn beyond(b: i64, n: u16) -> i64
    requires { (nat_abs b ≤ 2 ^ 31) × (n ≤ 100) }
    ensures { (result ≡ b +ℤ pos 2 *ℤ pos n) × (nat_abs result ≤ 2 ^ 32) }
{
    b + 2 * n as i64
}

fn is_small(c: RootTwo) -> bool
    ensures { result ≡ true → Sized reach_size reach_size c }
{
    integers::abs(c.p) <= 33554432 && integers::abs(c.q) <= 33554432
}

// c where that is small and at most d, else d.
fn lesser(d: RootTwo, c: RootTwo) -> RootTwo
    requires { Sized reach_size reach_size d }
    ensures { Either d c result }
{
    if !is_small(c) {
        return d;
    }
    if is_nonneg(combined(1, d, -1, c)) {
        c
    } else {
        d
    }
}

// What the whole direction near e·(u, v) says of (u, v), where that is less than d.
fn sharp(region: Region, n: u16, u: RootTwo, v: RootTwo, e: RootTwo, d: RootTwo) -> RootTwo
    requires { (accepted region ≡ true) × Direction u v × Unit e × Reaches region u v d × InDisk region n }
    ensures { Reaches region u v result }
{
    let f = product(e, u);
    let g = product(e, v);
    let x = rounded(f);
    let y = rounded(g);
    if !is_near(f, x) {
        return d;
    }
    if !is_near(g, y) {
        return d;
    }
    let t = beyond(whole(region, x, y), n);
    lesser(d, combined(t, conjugate(e), 0, e))
}

// d, or what a whole direction says, where that is less.
pub(crate) fn sharpened(region: Region, n: u16, u: RootTwo, v: RootTwo, d: RootTwo) -> RootTwo
    requires { (accepted region ≡ true) × Direction u v × Reaches region u v d × InDisk region n }
    ensures { Reaches region u v result }
{
    let m = integers::abs(rounded(u)).max(integers::abs(rounded(v)));
    sharp(region, n, u, v, units::unit(steps(n, m)), d)
}
