// Operators: calls without a session.
ghost use Rattle.std.specs.Prelude.{◌≡◌};
ghost use Rattle.operator.specs.Operator.{refusal, refusal_of, image_of, wide};
ghost use Rattle.operator.specs.Inverse.{inverse_of};
ghost use Rattle.library_numbers.specs.Numbers.{point_of, operator_of};
ghost use Rattle.bowujita.specs.Operators.{wide_four, refused_with, inverted_of};

use library_numbers::{Eight, Four};
use operator::WidePoint;

// A point of 64-bit numbers.
#[repr(C)]
#[derive(Clone, Copy)]
pub struct WideFour {
    pub a: i64,
    pub b: i64,
    pub c: i64,
    pub d: i64,
}

// The number of a refusal, or 0 and the inverse.
#[repr(C)]
#[derive(Clone, Copy)]
pub struct Inverted {
    pub number: u8,
    pub operator: Eight,
}

const NO_OPERATOR: Eight = Eight {
    a: 0,
    b: 0,
    c: 0,
    d: 0,
    ai: 0,
    bi: 0,
    ci: 0,
    di: 0,
};

fn number(c: Result<(), operator::Refusal>) -> u8
    ensures { result ≡ refusal c }
{
    match c {
        Ok(()) => 0,
        Err(operator::Refusal::OutOfRange) => refusals::OUT_OF_RANGE,
        Err(operator::Refusal::OddParity) => refusals::ODD_PARITY,
        Err(operator::Refusal::NotSpecial) => refusals::NOT_SPECIAL,
    }
}

// The test of an operator: 0, or the number of its refusal.
pub fn bowujita_operator_test(g: Eight) -> u8
    ensures { result ≡ refusal_of (operator_of g) }
{
    let o = library_numbers::operator_of(g);
    number(o.check())
}

// What an operator makes of a point.
pub fn bowujita_image(g: Eight, v: Four) -> WideFour
    ensures { wide_four result ≡ image_of (operator_of g) (point_of v) }
{
    let o = library_numbers::operator_of(g);
    wide_four(o.image(library_numbers::point_of(v)))
}

fn wide_four(w: WidePoint) -> WideFour
    ensures { wide_four result ≡ wide w }
{
    WideFour {
        a: w.a,
        b: w.b,
        c: w.c,
        d: w.d,
    }
}

// The inverse of an operator.
pub fn bowujita_inverse(g: Eight) -> Inverted
    ensures { result ≡ inverted_of (inverse_of (operator_of g)) }
{
    let o = library_numbers::operator_of(g);
    let h = o.inverse();
    match h {
        Ok(x) => undone(library_numbers::eight_of(x)),
        Err(c) => refused(number(Err(c))),
    }
}

fn undone(g: Eight) -> Inverted
    ensures { (result.number ≡ 0) × (result.operator ≡ g) }
{
    Inverted {
        number: 0,
        operator: g,
    }
}

fn refused(n: u8) -> Inverted
    ensures { result ≡ refused_with n }
{
    Inverted {
        number: n,
        operator: NO_OPERATOR,
    }
}
