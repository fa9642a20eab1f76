// Point order of spots.
ghost use Rattle.std.specs.Prelude.{◌≡◌};
ghost use Rattle.ring_points.specs.Points.{rank_of};
ghost use Rattle.walk_list.specs.Walk.{spot_of};
ghost use Rattle.tray_list.specs.Nearer.{nearer, is_at};
ghost use Rattle.tray_merge.specs.Past.{past};

use ring::Point;
use ring_points::order;

// The nearer of two spots.
pub(crate) fn nearer(s: Option<Point>, w: Option<Point>) -> Option<Point>
    ensures { spot_of result ≡ nearer (spot_of s) (spot_of w) }
{
    match s {
        Some(p) => nearer_to(p, w),
        None => w,
    }
}

fn nearer_to(p: Point, w: Option<Point>) -> Option<Point>
    ensures { spot_of result ≡ nearer (spot_of (Some p)) (spot_of w) }
{
    match w {
        Some(q) => {
            if order::before(q, p) {
                Some(q)
            } else {
                Some(p)
            }
        }
        None => Some(p),
    }
}

// Whether a spot is at a point.
pub(crate) fn is_at(s: Option<Point>, v: Point) -> bool
    ensures { result ≡ is_at (spot_of s) (rank_of v) }
{
    match s {
        Some(p) => order::is_same(p, v),
        None => false,
    }
}

// Whether a spot lies past another: behind it, or at the end.
pub(crate) fn past(s: Option<Point>, f: Option<Point>) -> bool
    ensures { result ≡ past (spot_of s) (spot_of f) }
{
    match s {
        Some(p) => is_before(f, p),
        None => true,
    }
}

// Whether a spot comes before a point.
fn is_before(f: Option<Point>, p: Point) -> bool
    ensures { result ≡ past (spot_of (Some p)) (spot_of f) }
{
    match f {
        Some(q) => order::before(q, p),
        None => false,
    }
}
