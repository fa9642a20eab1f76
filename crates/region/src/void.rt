// Regions that are seen from their fields to hold nothing: rectangles the wrong way round.
ghost use Rattle.std.specs.Prelude.{◌≡◌};
ghost use Rattle.region.specs.Void.{is_void, is_reversed};

use crate::{Rectangle, Region};

impl Region {
    // Whether it is seen to hold nothing.
    pub fn is_void(self) -> bool
        ensures { result ≡ is_void self }
    {
        match self {
            Region::Rectangle(r) => r.is_reversed(),
            Region::Ellipse(_) => false,
            Region::Slice(_) => false,
        }
    }
}

impl Rectangle {
    // Whether a lower end is above its upper one.
    fn is_reversed(self) -> bool
        ensures { result ≡ is_reversed self }
    {
        self.xh < self.xl || self.yh < self.yl
    }
}
