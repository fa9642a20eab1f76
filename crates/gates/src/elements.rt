// Points of 32-bit numbers, small enough that sums fit.
ghost use Rattle.std.specs.Prelude.{◌≡◌, cond, ◌^◌, ◌<◌, nat_abs, neg_ℤ, ◌+ℤ◌, ◌-ℤ◌};
ghost use Rattle.ring.specs.Point.{◌+ω◌, ◌-ω◌};
ghost use Rattle.ring.specs.Point.Divide.{halves};
ghost use Rattle.gate_theory.specs.Points.{turn, back, halved};
ghost use Rattle.gate_theory.specs.State.{Narrow};

use ring::Point;

fn add(a: i32, b: i32) -> i32
    requires { (nat_abs a < 2 ^ 28) × (nat_abs b < 2 ^ 28) }
    ensures { result ≡ a +ℤ b }
{
    a + b
}

fn sub(a: i32, b: i32) -> i32
    requires { (nat_abs a < 2 ^ 28) × (nat_abs b < 2 ^ 28) }
    ensures { result ≡ a -ℤ b }
{
    a - b
}

fn negated(a: i32) -> i32
    requires { nat_abs a < 2 ^ 30 }
    ensures { result ≡ neg_ℤ a }
{
    -a
}

pub(crate) fn half(v: Point) -> Point
    ensures { result ≡ halved v }
{
    Point {
        a: integers::half_sum(v.a, 0),
        b: integers::half_sum(v.b, 0),
        c: integers::half_sum(v.c, 0),
        d: integers::half_sum(v.d, 0),
    }
}

pub(crate) fn over_root2(v: Point) -> Point
    ensures { result ≡ halves v }
{
    Point {
        a: integers::half_difference(v.b, v.d),
        b: integers::half_sum(v.c, v.a),
        c: integers::half_sum(v.d, v.b),
        d: integers::half_difference(v.c, v.a),
    }
}

pub(crate) fn plus(v: Point, w: Point) -> Point
    requires { Narrow v × Narrow w }
    ensures { result ≡ v +ω w }
{
    Point {
        a: add(v.a, w.a),
        b: add(v.b, w.b),
        c: add(v.c, w.c),
        d: add(v.d, w.d),
    }
}

pub(crate) fn less(v: Point, w: Point) -> Point
    requires { Narrow v × Narrow w }
    ensures { result ≡ v -ω w }
{
    Point {
        a: sub(v.a, w.a),
        b: sub(v.b, w.b),
        c: sub(v.c, w.c),
        d: sub(v.d, w.d),
    }
}

// v over ω.
pub(crate) fn over_omega(v: Point) -> Point
    requires { nat_abs v.d < 2 ^ 30 }
    ensures { result ≡ back v }
{
    Point {
        a: negated(v.d),
        b: v.a,
        c: v.b,
        d: v.c,
    }
}

// ω v.
pub(crate) fn times_omega(v: Point) -> Point
    requires { nat_abs v.a < 2 ^ 30 }
    ensures { result ≡ turn v }
{
    Point {
        a: v.b,
        b: v.c,
        c: v.d,
        d: negated(v.a),
    }
}

// i^(−1) t, unless b.
pub(crate) fn unturn(b: bool, t: Point) -> Point
    requires { Narrow t }
    ensures { result ≡ cond b t (back (back t)) }
{
    if b { t } else { over_omega(over_omega(t)) }
}
