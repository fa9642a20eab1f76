// How far a region reaches in a direction (u, v) of Z[√2]: a number h with u·X + v·Y ≤ h all over it.
ghost use Rattle.std.specs.Prelude.{◌≡◌, true, ◌+◌, ◌*◌, ◌≤◌, ◌^◌, pos, nat_abs};
ghost use Rattle.ring.specs.RootTwo.{num};
ghost use Rattle.ring.specs.RootTwo.Order.{nonneg, ◌⊑◌};
ghost use Rattle.ring.specs.RootTwo.Sized.{Sized};
ghost use Rattle.region.specs.Region.{accepted};
ghost use Rattle.region.specs.declared.Region.TheVariants as R;
ghost use Rattle.region.specs.Enclosure.{region_of};
ghost use Rattle.question_strips.specs.Reach.{Direction, far_end, width_of, HalfWidth, Reaches};

use crate::sharp::sharpened;
use region::{Ellipse, Enclosure, Rectangle, Region};
use ring::RootTwo;
use ring_surds::{combined, is_nonneg, product};

// The end of lo..hi at which u·z is greatest.
fn far_end(u: RootTwo, lo: i32, hi: i32) -> i64
    ensures { result ≡ far_end (nonneg u) lo hi }
{
    if is_nonneg(u) { hi as i64 } else { lo as i64 }
}

fn over_rectangle(r: Rectangle, u: RootTwo, v: RootTwo) -> RootTwo
    requires { (accepted (R.Rectangle r) ≡ true) × Direction u v }
    ensures { Reaches (R.Rectangle r) u v result }
{
    combined(far_end(u, r.xl, r.xh), u, far_end(v, r.yl, r.yh), v)
}

// About q√2, by a convergent.
pub(crate) fn near_root(q: i64) -> i64
    requires { nat_abs q ≤ 2 ^ 38 }
    ensures { nat_abs result ≤ 2 * nat_abs q + 1 }
{
    let c = (integers::abs(q) * 22619537 / 15994428) as i64;
    if 0 <= q { c + 1 } else { -c }
}

// A whole number that is at least x: near it, or surely large enough.
fn ceiling(x: RootTwo) -> u64
    requires { Sized (2 ^ 26) (2 ^ 26) x }
    ensures { (result ≤ 2 ^ 29) × (x ⊑ num (pos result)) }
{
    let t = x.p + near_root(x.q);
    if is_nonneg(RootTwo {
        p: t - x.p,
        q: -x.q,
    }) {
        integers::abs(t)
    } else {
        integers::abs(x.p) + 2 * integers::abs(x.q)
    }
}

// u²R − 2uvQ + v²P.
fn width(e: Ellipse, u: RootTwo, v: RootTwo) -> RootTwo
    requires { (accepted (R.Ellipse e) ≡ true) × Direction u v }
    ensures { (result ≡ width_of e u v) × Sized (2 ^ 26) (2 ^ 26) result }
{
    let f = combined(e.r as i64, product(u, u), e.p as i64, product(v, v));
    combined(1, f, -2 * e.q as i64, product(u, v))
}

// An m with m²·(PR − Q²) at least S times the width.
fn half_width(e: Ellipse, u: RootTwo, v: RootTwo) -> u64
    requires { (accepted (R.Ellipse e) ≡ true) × Direction u v }
    ensures { HalfWidth e u v result }
{
    let f = ceiling(width(e, u, v));
    let d = e.discriminant() as u64;
    plane_lengths::roots::half_width(e.s, f, d)
}

fn over_ellipse(e: Ellipse, u: RootTwo, v: RootTwo) -> RootTwo
    requires { (accepted (R.Ellipse e) ≡ true) × Direction u v }
    ensures { Reaches (R.Ellipse e) u v result }
{
    let c = combined(e.cx as i64, u, e.cy as i64, v);
    let m = half_width(e, u, v);
    RootTwo {
        p: c.p + m as i64,
        q: c.q,
    }
}

fn over_enclosure(around: Enclosure, u: RootTwo, v: RootTwo) -> RootTwo
    requires { (accepted (region_of around) ≡ true) × Direction u v }
    ensures { Reaches (region_of around) u v result }
{
    match around {
        Enclosure::Rectangle(r) => over_rectangle(r, u, v),
        Enclosure::Ellipse(e) => over_ellipse(e, u, v),
    }
}

pub(crate) fn over(region: Region, u: RootTwo, v: RootTwo) -> RootTwo
    requires { (accepted region ≡ true) × Direction u v }
    ensures { Reaches region u v result }
{
    let d = over_enclosure(region_extent::enclosure(region), u, v);
    let n = region_extent::radius(region);
    if n == 0 {
        return d;
    }
    sharpened(region, n, u, v, d)
}
