// Product and determinant of any matrices: exact for numbers up to 2^30 in size, as those of every operator are.
ghost use Rattle.std.specs.Prelude.{◌≡◌};
ghost use Rattle.operator_matrices.specs.Matrix.{entry_within, lies_within, determinant_within};
ghost use Rattle.operator_matrices.specs.Within.{Multiplies};

use crate::{CheckedDeterminant, CheckedProduct, Entry, matrix};

// 2^30.
const LIMIT: u64 = 1073741824;

const ZERO: Entry = Entry { p: 0, q: 0 };

// The product of two matrices; not exact, and 0, where a number is larger.
pub fn product(m: [[Entry; 2]; 2], n: [[Entry; 2]; 2]) -> CheckedProduct
    ensures { Multiplies m n result }
{
    if is_within(m) & is_within(n) {
        let p = matrix::product(m, n);
        let first = p[0];
        let second = p[1];
        return CheckedProduct {
            exact: true,
            first: first,
            second: second,
        };
    }
    CheckedProduct {
        exact: false,
        first: [ZERO, ZERO],
        second: [ZERO, ZERO],
    }
}

// The determinant of a matrix; not exact, and 0, where a number is larger.
pub fn determinant(m: [[Entry; 2]; 2]) -> CheckedDeterminant
    ensures { (result.exact ≡ lies_within m) × (result.value ≡ determinant_within m) }
{
    if is_within(m) {
        let d = matrix::determinant(m);
        return CheckedDeterminant {
            exact: true,
            value: d,
        };
    }
    CheckedDeterminant {
        exact: false,
        value: ZERO,
    }
}

fn is_within(m: [[Entry; 2]; 2]) -> bool
    ensures { result ≡ lies_within m }
{
    entry_is_within(m[0][0])
        & entry_is_within(m[0][1])
        & (entry_is_within(m[1][0]) & entry_is_within(m[1][1]))
}

fn entry_is_within(e: Entry) -> bool
    ensures { result ≡ entry_within e }
{
    (integers::abs(e.p) <= LIMIT) & (integers::abs(e.q) <= LIMIT)
}
