// Operators as two-by-two matrices of numbers p + q/√2: SPEC, "Operators". Their products and determinants, and those of any matrices.
#![tactic(auto)]

ghost use Rattle.std.specs.Prelude.{◌≡◌};
ghost use Rattle.operator_matrices.specs.Matrix.{matrix_of, product_of, determinant_of};

use operator::Operator;

mod bounded;
mod matrix;

pub use bounded::{determinant, product};

// p + q/√2.
#[derive(Clone, Copy)]
pub struct Entry {
    pub p: i64,
    pub q: i64,
}

// The rows of a product of any matrices, and whether they are it.
#[derive(Clone, Copy)]
pub struct CheckedProduct {
    pub exact: bool,
    pub first: [Entry; 2],
    pub second: [Entry; 2],
}

// A determinant of any matrix, and whether it is that.
#[derive(Clone, Copy)]
pub struct CheckedDeterminant {
    pub exact: bool,
    pub value: Entry,
}

// The matrix of an operator: the Note, Lemma 3.8.
pub fn of(g: Operator) -> [[Entry; 2]; 2]
    ensures { result ≡ matrix_of g }
{
    [
        [
            matrix::minus(g.d, g.c, g.a),
            matrix::minus(g.di, g.ci, g.ai),
        ],
        [matrix::plus(g.b, g.c, g.a), matrix::plus(g.bi, g.ci, g.ai)],
    ]
}

// The product of two operators' matrices.
pub fn product_of(g: Operator, h: Operator) -> [[Entry; 2]; 2]
    ensures { result ≡ product_of (matrix_of g) (matrix_of h) }
{
    matrix::product(of(g), of(h))
}

// The determinant of an operator's matrix.
pub fn determinant_of(g: Operator) -> Entry
    ensures { result ≡ determinant_of (matrix_of g) }
{
    matrix::determinant(of(g))
}
