// Operators: calls without a session.
ghost use Rattle.std.specs.Prelude.{◌≡◌};
ghost use Rattle.operator.specs.Operator.{refusal_of, image_of};
ghost use Rattle.operator.specs.Inverse.{inverse_of};
ghost use Rattle.library_numbers.specs.Numbers.{point_of, operator_of};
ghost use Rattle.bowujita.specs.Operators.{wide_four, inverted_of};

use bowujita::operators;
use bowujita::operators::{Inverted, WideFour};
use library_numbers::{Eight, Four};

// The test of an operator: 0, or the number of its refusal.
#[unsafe(no_mangle)]
pub extern "C" fn bowujita_operator_test(g: Eight) -> u8
    ensures { result ≡ refusal_of (operator_of g) }
{
    operators::bowujita_operator_test(g)
}

// What an operator makes of a point.
#[unsafe(no_mangle)]
pub extern "C" fn bowujita_image(g: Eight, v: Four) -> WideFour
    ensures { wide_four result ≡ image_of (operator_of g) (point_of v) }
{
    operators::bowujita_image(g, v)
}

// The inverse of an operator.
#[unsafe(no_mangle)]
pub extern "C" fn bowujita_inverse(g: Eight) -> Inverted
    ensures { result ≡ inverted_of (inverse_of (operator_of g)) }
{
    operators::bowujita_inverse(g)
}
