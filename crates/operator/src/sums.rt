// Sums of four numbers of an operator, their parity and their halves.
ghost use Rattle.std.specs.Prelude.{◌≡◌, ◌+ℤ◌, ◌-ℤ◌};
ghost use Rattle.integers.specs.Parity.{even, half};

pub(crate) fn is_even(x: i16, y: i16, z: i16, w: i16) -> bool
    ensures { result ≡ even (x +ℤ y +ℤ z +ℤ w) }
{
    integers::is_even(integers::sum(sum(x, y), sum(z, w)))
}

pub(crate) fn half_sum(x: i16, y: i16, z: i16, w: i16) -> i32
    ensures { result ≡ half (x +ℤ y +ℤ z +ℤ w) }
{
    integers::half_sum(sum(x, y), sum(z, w))
}

// Half of x + y − z − w.
pub(crate) fn half_difference(x: i16, y: i16, z: i16, w: i16) -> i32
    ensures { result ≡ half (x +ℤ y -ℤ z -ℤ w) }
{
    integers::half_difference(sum(x, y), sum(z, w))
}

fn sum(x: i16, y: i16) -> i32
    ensures { result ≡ x +ℤ y }
{
    x as i32 + y as i32
}
