// What a region lies in: a rectangle or an ellipse, and for a slice a disk about 0.
ghost use Rattle.std.specs.Prelude.{◌≡◌};
ghost use Rattle.region.specs.Enclosure.{enclosed, radius};

use region::{Enclosure, Region};

// The region itself, or a slice's disk.
pub fn enclosure(region: Region) -> Enclosure
    ensures { result ≡ enclosed region }
{
    match region {
        Region::Rectangle(r) => Enclosure::Rectangle(r),
        Region::Ellipse(e) => Enclosure::Ellipse(e),
        Region::Slice(s) => Enclosure::Ellipse(s.disk()),
    }
}

// The radius of a slice's disk, in which a bound says more than the enclosure; for other regions 0.
pub fn radius(region: Region) -> u16
    ensures { result ≡ radius region }
{
    match region {
        Region::Rectangle(_) => 0,
        Region::Ellipse(_) => 0,
        Region::Slice(s) => s.n,
    }
}
