// A coordinate of Gv: the Note, equations 45 to 48.
ghost use Rattle.std.specs.Prelude.{◌≡◌, ◌+ℤ◌, ◌-ℤ◌, ◌*ℤ◌};
ghost use Rattle.integers.specs.Parity.{half};
ghost use Rattle.operator.specs.Bounded.{Bounded, Near};

use crate::WidePoint;
use crate::sums::{half_difference, half_sum};

// Equations 46 and 47.
pub(crate) fn plus(p: i16, q: i16, x: i16, y: i16, z: i16, w: i16, v: WidePoint) -> i64
    requires { Near v }
    ensures { result ≡ p *ℤ v.d +ℤ q *ℤ v.b +ℤ half (x +ℤ y +ℤ z +ℤ w) *ℤ v.c +ℤ half (x +ℤ y -ℤ z -ℤ w) *ℤ v.a }
{
    row(p, q, half_sum(x, y, z, w), half_difference(x, y, z, w), v)
}

// Equations 45 and 48.
pub(crate) fn minus(p: i16, q: i16, x: i16, y: i16, z: i16, w: i16, v: WidePoint) -> i64
    requires { Near v }
    ensures { result ≡ p *ℤ v.d +ℤ q *ℤ v.b +ℤ half (x -ℤ y +ℤ z -ℤ w) *ℤ v.c +ℤ half (x -ℤ y -ℤ z +ℤ w) *ℤ v.a }
{
    row(
        p,
        q,
        half_difference(x, z, y, w),
        half_difference(x, w, y, z),
        v,
    )
}

fn row(p: i16, q: i16, r: i32, s: i32, v: WidePoint) -> i64
    requires { Bounded 16 r × Bounded 16 s × Near v }
    ensures { result ≡ p *ℤ v.d +ℤ q *ℤ v.b +ℤ r *ℤ v.c +ℤ s *ℤ v.a }
{
    p as i64 * v.d + q as i64 * v.b + r as i64 * v.c + s as i64 * v.a
}
