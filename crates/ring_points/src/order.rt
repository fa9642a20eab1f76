// Point order.
ghost use Rattle.std.specs.Prelude.{◌≡◌, ltb, eqb};
ghost use Rattle.ring_points.specs.Points.{rank_of, word};

use ring::Point;

// Two digits in one word.
fn word(x: i32, y: i32) -> u64
    ensures { result ≡ word x y }
{
    crate::digit(x) * 4294967296 + crate::digit(y)
}

// Whether v comes before w: by a, then b, c, d.
pub fn before(v: Point, w: Point) -> bool
    ensures { result ≡ ltb (rank_of v) (rank_of w) }
{
    let x = word(v.a, v.b);
    let y = word(w.a, w.b);
    if x < y {
        return true;
    }
    if y < x {
        return false;
    }
    word(v.c, v.d) < word(w.c, w.d)
}

// Whether they are the same point.
pub fn is_same(v: Point, w: Point) -> bool
    ensures { result ≡ eqb (rank_of v) (rank_of w) }
{
    if word(v.c, v.d) != word(w.c, w.d) {
        return false;
    }
    word(v.a, v.b) == word(w.a, w.b)
}
