// How far a slice reaches in the direction (u, v): no farther than its disk, nor than q·(u, v) + p·(zx, zy) in the disk, less p·w, over q, for any p and q. A
// good p/q is guessed; no proof rests on it. Where the half plane only touches the disk, no farther than the point n²·z/w.
ghost use Rattle.std.specs.Prelude.{◌≡◌, true, ◌^◌, ◌≤◌, nat_abs};
ghost use Rattle.region.specs.declared.Region.TheVariants as R;
ghost use Rattle.region.specs.Region.{accepted};
ghost use Rattle.region.specs.ReachOver.{top_direction, Bounds};
ghost use Rattle.region.specs.Slice.{is_point};

use crate::shapes::over_ellipse;
use plane_estimates::fraction::at_chord;
use plane_lengths::products::{along, inner, is_short, less, multiplied, quotient, touches};
use plane_lengths::roots::length;
use region::Slice;

pub(crate) fn over_slice(s: Slice, u: i16, v: i16) -> i64
    requires { (accepted (R.Slice s) ≡ true) × (nat_abs u ≤ top_direction) × (nat_abs v ≤ top_direction) }
    ensures { Bounds (R.Slice s) u v result }
{
    let d = point(s, u, v, over_ellipse(s.disk(), u, v));
    let f = at_chord(s.n, s.zx, s.zy, s.w, u, v);
    sum(s, u, v, f.p, f.q, d)
}

// Whether the half plane leaves one point of the disk at most: w is at least n times the length of z.
fn is_point(s: Slice) -> bool
    ensures { result ≡ is_point s }
{
    touches(s.n, s.zx, s.zy, s.w)
}

// What the point n²·z/w says of (u, v), where there is no other and that is less than d.
fn point(s: Slice, u: i16, v: i16, d: i64) -> i64
    requires { (accepted (R.Slice s) ≡ true) × Bounds (R.Slice s) u v d }
    ensures { Bounds (R.Slice s) u v result }
{
    if !is_point(s) {
        return d;
    }
    let w = integers::abs(s.w as i64);
    let h = quotient(multiplied(s.n, inner(u, v, s.zx, s.zy)), w);
    // No min: the proof rests on the test.
    if h < d { h } else { d }
}

// What q·(u, v) + p·(zx, zy) says of (u, v), where that is less than d.
fn sum(s: Slice, u: i16, v: i16, p: u64, q: u64, d: i64) -> i64
    requires { (accepted (R.Slice s) ≡ true) × (p ≤ 2 ^ 41) × (1 ≤ q) × (q ≤ 256) × Bounds (R.Slice s) u v d }
    ensures { Bounds (R.Slice s) u v result }
{
    let a = along(q, u, p, s.zx);
    let b = along(q, v, p, s.zy);
    if !is_short(a) {
        return d;
    }
    if !is_short(b) {
        return d;
    }
    let m = length(s.n, a, b);
    let h = quotient(less(m, p, s.w), q);
    // No min: the proof rests on the test.
    if h < d { h } else { d }
}
