// What a region and the unit disk share lies in a slice of the disk towards the region: where the two only touch, the slice is one point. Which way the slice lies is free.
ghost use Rattle.std.specs.Prelude.{◌≡◌, true, ◌≤◌, nat_abs, neg_ℤ};
ghost use Rattle.region.specs.Region.{accepted};
ghost use Rattle.region.specs.Reach.{reach_of};
ghost use Rattle.pattern_apart.specs.Shared.{Shares};

use crate::{Way, disk};
use plane_estimates::near::Signed;
use plane_estimates::rough;
use region::{Region, Slice};

// The greatest part of a slice's direction, and its greatest w.
const LONGEST: u64 = 100;

const FARTHEST: u64 = 1000000;

// A region that holds all that a region and the unit disk both hold.
pub fn shared(r: Region) -> Region
    requires { accepted r ≡ true }
    ensures { Shares r result }
{
    let w = towards(r);
    let o = w.opposite();
    sliced(r, w, region_extent::reach(r, o.x, o.y))
}

// The slice of the disk from where the region begins in a direction on; the disk itself where no record says that slice.
fn sliced(r: Region, w: Way, h: i64) -> Region
    requires { (accepted r ≡ true) × (h ≡ reach_of r (neg_ℤ w.x) (neg_ℤ w.y)) }
    ensures { Shares r result }
{
    if FARTHEST < integers::abs(h) {
        return disk();
    }
    let s = Region::Slice(Slice {
        n: r.scale(),
        zx: w.x,
        zy: w.y,
        w: turned(h),
    });
    if s.is_accepted() { s } else { disk() }
}

// −h.
fn turned(h: i64) -> i32
    requires { nat_abs h ≤ 1000000 }
    ensures { result ≡ neg_ℤ h }
{
    -(h as i32)
}

// The direction in which the middle of the region's box lies.
fn towards(r: Region) -> Way
    ensures { (nat_abs result.x ≤ 100) × (nat_abs result.y ≤ 100) }
{
    let x = middle(
        region_extent::reach(r, 1, 0),
        region_extent::reach(r, -1, 0),
    );
    let y = middle(
        region_extent::reach(r, 0, 1),
        region_extent::reach(r, 0, -1),
    );
    let m = unit(integers::abs(x), integers::abs(y));
    Way {
        x: part(x, m),
        y: part(y, m),
    }
}

// Twice the middle of −g and h.
fn middle(h: i64, g: i64) -> i64 {
    integers::difference(narrow(h), narrow(g))
}

// A number of 32 bits; 0 for any other.
fn narrow(z: i64) -> i32 {
    match integers::to_i32(z) {
        Some(n) => n,
        None => 0,
    }
}

// What two numbers are divided by: what divides both, where at most 100 is left then, else so much that at most 100 is left.
fn unit(x: u64, y: u64) -> u64
    ensures { 1 ≤ result }
{
    divisor(x, y).max(x.max(y) / LONGEST + 1)
}

// The greatest common divisor; 1 for 0 and 0.
fn divisor(x: u64, y: u64) -> u64
    ensures { 1 ≤ result }
{
    let mut a = x;
    let mut b = y;
    while 0 < b {
        let c = a % b;
        a = b;
        b = c;
    }
    a.max(1)
}

// A part of a direction.
fn part(x: i64, m: u64) -> i16
    requires { 1 ≤ m }
    ensures { nat_abs result ≤ 100 }
{
    let z = Signed {
        minus: x < 0,
        size: integers::abs(x) / m,
    };
    rough::number(z, LONGEST) as i16
}
