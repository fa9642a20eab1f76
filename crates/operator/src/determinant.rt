// The two numbers of the determinant: SPEC, "Operators".
ghost use Rattle.std.specs.Prelude.{◌≡◌, ◌-ℤ◌, ◌*ℤ◌};
ghost use Rattle.operator.specs.Operator.{det_whole, det_root};

use crate::Operator;

// db' − d'b + ca' − ac'.
pub(crate) fn whole(g: Operator) -> i64
    ensures { result ≡ det_whole g }
{
    crossed(g.d, g.bi, g.di, g.b) + crossed(g.c, g.ai, g.a, g.ci)
}

// d(c' + a') + b'(c − a) − d'(c + a) − b(c' − a').
pub(crate) fn root(g: Operator) -> i64
    ensures { result ≡ det_root g }
{
    crossed(g.d, g.ci, g.di, g.c)
        + crossed(g.d, g.ai, g.di, g.a)
        + crossed(g.bi, g.c, g.b, g.ci)
        + crossed(g.b, g.ai, g.bi, g.a)
}

// xy − zw.
fn crossed(x: i16, y: i16, z: i16, w: i16) -> i64
    ensures { result ≡ x *ℤ y -ℤ z *ℤ w }
{
    x as i64 * y as i64 - z as i64 * w as i64
}
