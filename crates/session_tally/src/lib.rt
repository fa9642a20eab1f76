// How the points that were handed out spread over the exponents: SPEC, "Tally".
#![tactic(auto)]

ghost use Rattle.std.specs.Prelude.{◌≡◌, ◌*◌, ◌≤◌, false, ◌-ℤ◌, length, take};
ghost use Rattle.integers.specs.Parity.{even};
ghost use Rattle.ring.specs.Point.Exponent.{exponent_of};
ghost use Rattle.ring_points.specs.Slices.{points_of};
ghost use Rattle.session_tally.specs.Spread.{spread, alone, added, nothing};
ghost use Rattle.session_tally.specs.Odd.{odd, half_of};

use integers_wide::Size;
use ring::Point;

// A count of two words for each exponent from 0 to 20.
#[derive(Clone, Copy)]
pub struct Tally {
    pub counts: [Size; 21],
}

impl Tally {
    // No point.
    pub fn zero() -> Tally
        ensures { result ≡ nothing }
    {
        let none = Size { hi: 0, lo: 0 };
        let counts = [none; 21];
        Tally { counts }
    }

    // More points of each exponent; from 2^128 on a count begins at 0 again, which no list reaches.
    pub fn plus(self, more: [u64; 21]) -> Tally
        ensures { result.counts ≡ added more self.counts }
    {
        let mut counts = self.counts;
        for (e, n) in more.iter().enumerate() {
            counts[e] = counts[e].plus(*n);
        }
        Tally { counts }
    }
}

// Of the first n points of a slice, how many have each exponent at the scale k. Those that √2 does not divide have k, and are not looked at further.
pub fn spread_of(points: &[i32], n: usize, k: u8) -> [u64; 21]
    requires { 4 * n ≤ length points.now }
    ensures { result ≡ spread k (points_of (take (4 * n) points.now)) }
{
    let mut counts = [0u64; 21];
    let mut even: usize = 0;
    for i in 0..n {
        let v = ring_points::point_at(points, i);
        if !is_odd(v) {
            let e = exponent(v, k) as usize;
            if e < 21 {
                counts[e] += 1;
            }
            even += 1;
        }
    }
    let e = usize::from(k);
    if e < 21 {
        counts[e] += (n - even) as u64;
    }
    counts
}

// Whether √2 does not divide a point.
fn is_odd(v: Point) -> bool
    ensures { result ≡ odd v }
{
    !(agree(v.a, v.c) && agree(v.b, v.d))
}

// Whether 2 divides a − b.
fn agree(a: i32, b: i32) -> bool
    ensures { result ≡ even (a -ℤ b) }
{
    integers::is_even(integers::difference(a, b))
}

// The exponent of a point that √2 divides: k − 1 where 2 does not, else that of its half at k − 2.
fn exponent(v: Point, k: u8) -> u32
    requires { odd v ≡ false }
    ensures { result ≡ exponent_of k v }
{
    if k < 2 {
        return 0;
    }
    if agree(v.a, 0) && agree(v.b, 0) {
        return exponent_of(half(v), k - 2);
    }
    u32::from(k) - 1
}

// The exponent of any point: k where √2 does not divide it.
fn exponent_of(v: Point, k: u8) -> u32
    ensures { result ≡ exponent_of k v }
{
    if is_odd(v) {
        return u32::from(k);
    }
    v.exponent(k)
}

// Half of a point, each number toward zero.
fn half(v: Point) -> Point
    ensures { result ≡ half_of v }
{
    Point {
        a: integers::half_difference(v.a, 0),
        b: integers::half_difference(v.b, 0),
        c: integers::half_difference(v.c, 0),
        d: integers::half_difference(v.d, 0),
    }
}

// The same for n points that are new at the scale k: all have the exponent k.
pub fn all_new(n: usize, k: u8) -> [u64; 21]
    ensures { result ≡ alone n k }
{
    let mut counts = [0u64; 21];
    let e = usize::from(k);
    if e < 21 {
        counts[e] = n as u64;
    }
    counts
}
