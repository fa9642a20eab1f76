// Digits of a point's rank: a coordinate + 2^31; point order; and a point as four numbers of a slice.
#![tactic(auto)]

ghost use Rattle.std.specs.Prelude.{◌≡◌, ◌+◌, ◌*◌, ◌≤◌, ◌<◌, length};
ghost use Rattle.std.proofs.lemmas.List.Edits.{sets};
ghost use Rattle.ring_points.specs.Digits.{span, coordinate, digit};
ghost use Rattle.ring_points.specs.Points.{rank_of, numbers_in};
ghost use Rattle.ring_points.specs.Slices.{point_ranked};

pub mod order;

use ring::Point;

// The digit of the coordinate 0.
pub const ORIGIN: u64 = 2147483648;

const HALF: i64 = ORIGIN as i64;

// The digit of a coordinate.
pub fn digit(z: i32) -> u64
    ensures fact_1 { result ≡ digit z }
    ensures fact_2 { result < span }
{
    (z as i64 + HALF) as u64
}

// The coordinate of a digit.
pub fn coordinate(t: u64) -> i32
    requires { t < span }
    ensures { result ≡ coordinate t }
{
    (t as i64 - HALF) as i32
}

// A point written to four numbers of the slice, from k on.
pub fn put(out: &mut [i32], k: usize, v: Point)
    requires { k + 4 ≤ length out.old }
    ensures { out.new ≡ sets out.old k (numbers_in (rank_of v)) }
{
    let a = v.a;
    let b = v.b;
    let c = v.c;
    let d = v.d;
    out[k] = a;
    out[k + 1] = b;
    out[k + 2] = c;
    out[k + 3] = d;
}

// The point number i of a slice.
pub fn point_at(points: &[i32], i: usize) -> Point
    requires { 4 * i + 4 ≤ length points.now }
    ensures { result ≡ point_ranked points.now i }
{
    Point {
        a: points[4 * i],
        b: points[4 * i + 1],
        c: points[4 * i + 2],
        d: points[4 * i + 3],
    }
}
