// Floors: where a job's list goes on from a point at the earliest, by the range of a alone.
ghost use Rattle.std.specs.Prelude.{◌≡◌, true};
ghost use Rattle.region.specs.Region.{accepted_job};
ghost use Rattle.walk_list.specs.Walk.{left, rank_of, spot_of};
ghost use Rattle.tray_merge.specs.Lane.{left_of};

use cuts::directions::{BACK, FINE, strip};
use region::Job;
use ring::Point;
use ring_points::digit;

// A place with the same listed points left as a point has.
pub(crate) fn floor(job: Job, from: Point) -> Option<Point>
    ensures { left_of job (spot_of result) ≡ left job (rank_of from) }
{
    if job.is_accepted() {
        return raised(job, from);
    }
    Some(from)
}

// The same of an accepted job: the first place with an a that the cuts leave.
fn raised(job: Job, from: Point) -> Option<Point>
    requires { accepted_job job ≡ true }
    ensures { left_of job (spot_of result) ≡ left job (rank_of from) }
{
    let s = strip(job, BACK, FINE, FINE, BACK);
    let a = digit(from.a);
    let r = cuts_bounds::range_a(job, s, s, a);
    if r.end <= r.start {
        return None;
    }
    if a < r.start {
        return Some(cuts_columns::point(r.start, 0, 0, 0));
    }
    Some(from)
}

// Whether bounds are worth finding for a walk from s on, where the nearest goes on at w.
pub(crate) fn is_near(s: Option<Point>, w: Option<Point>) -> bool {
    match (s, w) {
        (Some(p), Some(q)) => p.a <= q.a,
        _ => false,
    }
}
