// Where a region ends, for guesses: outward directions, the way that it lies, and the point of one without width. Nothing is claimed of how near they are.
ghost use Rattle.std.specs.Prelude.{◌≤◌};
ghost use Rattle.region.specs.Region.{top_scale};

use plane_estimates::near::Signed;
use plane_estimates::tangent::Normal;
use plane_estimates::{near, rough, tangent};
use region::{Region, weight};

// The direction in which the region, turned about 0 if so asked, ends at the height of (s + b√2)/√2^(k+1).
pub fn normal(region: Region, k: u8, s: Signed, b: Signed, turn: bool, up: bool) -> Normal
    requires { k ≤ top_scale }
{
    match region {
        Region::Rectangle(_) => tangent::level(1000),
        Region::Ellipse(e) => {
            let d = integers::abs(e.discriminant());
            let w = weight(k);
            let h = tangent::height(e.n, w.p, w.q, s, b, tangent::centre(e.cy, turn));
            tangent::normal_of_form(e.p, e.q, e.s, d, h, up)
        }
        Region::Slice(z) => {
            let x = tangent::side(z.zx, turn);
            let y = tangent::side(z.zy, turn);
            let w = weight(k);
            let h = tangent::height(z.n, w.p, w.q, s, b, tangent::centre(0, false));
            tangent::normal_of_slice(z.n, x, y, z.w, h, up)
        }
    }
}

// About m times x or y of a region without width: of a slice n·z/w.
pub fn value(region: Region, x: bool, m: u64) -> Signed {
    match region {
        Region::Rectangle(r) => {
            let c = if x { r.xl } else { r.yl };
            rough::part(tangent::centre(c, false), m, r.n as u64)
        }
        Region::Ellipse(e) => {
            let c = if x { e.cx } else { e.cy };
            rough::part(tangent::centre(c, false), m, e.n as u64)
        }
        Region::Slice(s) => {
            let c = if x { s.zx } else { s.zy };
            let w = tangent::centre(s.w, false);
            rough::part(
                tangent::side(c, false),
                near::product(m, s.n as u64),
                w.size,
            )
        }
    }
}

// Outward at an end of the chord across a value of x or of y, along the chord first; v is 1024·n times the value.
pub fn normal_across(region: Region, x: bool, v: Signed, up: bool) -> Normal {
    match region {
        Region::Rectangle(_) => tangent::level(16000),
        Region::Ellipse(e) => {
            let d = integers::abs(e.discriminant());
            let c = if x { e.cx } else { e.cy };
            let p = if x { e.r } else { e.p };
            let h = tangent::height_of(v, tangent::centre(c, false));
            tangent::normal_of_form(p, e.q, e.s, d, h, up)
        }
        Region::Slice(s) => {
            let a = if x { s.zy } else { s.zx };
            let b = if x { s.zx } else { s.zy };
            let h = tangent::height_of(v, tangent::centre(0, false));
            tangent::normal_of_slice(
                s.n,
                tangent::side(a, false),
                tangent::side(b, false),
                s.w,
                h,
                up,
            )
        }
    }
}

// The direction that bounds the region's chords along x best: for an ellipse that of (P, Q), since P·form = (P·dx + Q·dy)² + (PR − Q²)·dy².
pub fn along(region: Region) -> Normal {
    match region {
        Region::Rectangle(_) => tangent::level(1024),
        Region::Ellipse(e) => tangent::along_form(e.p, e.q),
        Region::Slice(s) => tangent::stretched(tangent::lengthwise(s.n, s.zx, s.zy, s.w)),
    }
}

// The same at any length, for the slope 500·Q/P.
pub fn slant(region: Region) -> Normal {
    match region {
        Region::Rectangle(_) => tangent::level(1),
        Region::Ellipse(e) => tangent::form(e.p, e.q),
        Region::Slice(s) => tangent::lengthwise(s.n, s.zx, s.zy, s.w),
    }
}

// The direction of a slice's z; for other regions none, (0, 0).
pub fn axis(region: Region) -> Normal {
    match region {
        Region::Rectangle(_) => tangent::level(0),
        Region::Ellipse(_) => tangent::level(0),
        Region::Slice(s) => tangent::lengthened(
            tangent::side(s.zx, false),
            tangent::side(s.zy, false),
        ),
    }
}

// The coordinates of a slice of one point are whole numbers over this. For other regions 1.
pub fn grain(region: Region) -> u64 {
    match region {
        Region::Rectangle(_) => 1,
        Region::Ellipse(_) => 1,
        Region::Slice(s) => tangent::grain(s.n, s.zx, s.zy, s.w),
    }
}
