// How far a region reaches in a direction, what it lies in, and where its outline is, for guesses.
#![tactic(auto)]

ghost use Rattle.std.specs.Prelude.{◌≡◌, true, ◌≤◌, nat_abs};
ghost use Rattle.region.specs.Region.{accepted};
ghost use Rattle.region.specs.Reach.{reach_of};
ghost use Rattle.region.specs.ReachOver.{top_direction, Bounds};

mod half;
mod outer;
mod shapes;
mod tangent;

use half::over_slice;
pub use outer::{enclosure, radius};
use region::Region;
use shapes::{over_ellipse, over_rectangle};
pub use tangent::{along, axis, grain, normal, normal_across, slant, value};

// A whole number that u·X + v·Y passes nowhere in the region: 0 for one that is not accepted, which holds nothing.
pub fn reach(region: Region, u: i16, v: i16) -> i64
    ensures { result ≡ reach_of region u v }
{
    if !region.is_accepted() {
        return 0;
    }
    match region {
        Region::Rectangle(r) => over_rectangle(r, u, v),
        Region::Ellipse(e) => over_ellipse(e, u, v),
        Region::Slice(s) => over_ellipse(s.disk(), u, v),
    }
}

// The same of an accepted region as sharp as the search has it: a slice's half plane counts too.
pub fn bound(region: Region, u: i16, v: i16) -> i64
    requires { (accepted region ≡ true) × (nat_abs u ≤ top_direction) × (nat_abs v ≤ top_direction) }
    ensures { Bounds region u v result }
{
    match region {
        Region::Rectangle(r) => over_rectangle(r, u, v),
        Region::Ellipse(e) => over_ellipse(e, u, v),
        Region::Slice(s) => over_slice(s, u, v),
    }
}
