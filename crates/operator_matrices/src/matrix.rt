// An operator's matrix, an array of two arrays of entries p + q/√2: its entries, the product and the determinant.
ghost use Rattle.std.specs.Prelude.{◌≡◌, ◌<◌, neg_ℤ, ◌+ℤ◌, ◌-ℤ◌, ◌*ℤ◌};
ghost use Rattle.operator_matrices.specs.Matrix.{pairs, cell, product_of, determinant_of};
ghost use Rattle.operator.specs.Bounded.{Bounded};
ghost use Rattle.operator_matrices.specs.Bounded.{BoundedEntry, BoundedMatrix};

use crate::Entry;

// p + (x + y)/√2.
pub(crate) fn plus(p: i16, x: i16, y: i16) -> Entry
    ensures { result ≡ record { p = p; q = x +ℤ y } }
{
    Entry {
        p: p as i64,
        q: x as i64 + y as i64,
    }
}

// p + (x − y)/√2.
pub(crate) fn minus(p: i16, x: i16, y: i16) -> Entry
    ensures { result ≡ record { p = p; q = x -ℤ y } }
{
    Entry {
        p: p as i64,
        q: x as i64 - y as i64,
    }
}

pub(crate) fn product(m: [[Entry; 2]; 2], n: [[Entry; 2]; 2]) -> [[Entry; 2]; 2]
    requires { BoundedMatrix m × BoundedMatrix n }
    ensures { result ≡ product_of m n }
{
    [
        [cell(m, n, 0, 0), cell(m, n, 0, 1)],
        [cell(m, n, 1, 0), cell(m, n, 1, 1)],
    ]
}

// Row i of m by column j of n.
fn cell(m: [[Entry; 2]; 2], n: [[Entry; 2]; 2], i: usize, j: usize) -> Entry
    requires { BoundedMatrix m × BoundedMatrix n × (i < 2) × (j < 2) }
    ensures { result ≡ cell m n i j }
{
    pairs(m[i][0], n[0][j], m[i][1], n[1][j])
}

pub(crate) fn determinant(m: [[Entry; 2]; 2]) -> Entry
    requires { BoundedMatrix m }
    ensures { result ≡ determinant_of m }
{
    pairs(m[0][0], m[1][1], negated(m[0][1]), m[1][0])
}

fn negated(x: Entry) -> Entry
    requires { BoundedEntry x }
    ensures { result ≡ record { p = neg_ℤ x.p; q = neg_ℤ x.q } }
{
    Entry { p: -x.p, q: -x.q }
}

// xy + uw.
fn pairs(x: Entry, y: Entry, u: Entry, w: Entry) -> Entry
    requires { BoundedEntry x × BoundedEntry y × BoundedEntry u × BoundedEntry w }
    ensures { result ≡ pairs x y u w }
{
    Entry {
        p: dot(x.p, y.p, u.p, w.p) + dot(x.q, y.q, u.q, w.q) / 2,
        q: dot(x.p, y.q, x.q, y.p) + dot(u.p, w.q, u.q, w.p),
    }
}

fn dot(x: i64, y: i64, u: i64, w: i64) -> i64
    requires { Bounded 30 x × Bounded 30 y × Bounded 30 u × Bounded 30 w }
    ensures { result ≡ x *ℤ y +ℤ u *ℤ w }
{
    x * y + u * w
}
