// Rows of grid operators: `eight numbers | refusal` and `operator | v | Gv | determinant | inverse`.
use operator::Operator;
use test_rows::{Numbers, WIDTH};

// Whether the test of the row's operator comes to the row's number.
pub fn check_right(row: &[u8]) -> bool {
    let n = Numbers::of(row);
    let Some(g) = console_arguments::operator_at(&n.values, 0) else {
        return false;
    };
    n.count == 9 && number(g.check()) == n.values[8]
}

fn number(c: Result<(), operator::Refusal>) -> i64 {
    match c {
        Ok(()) => 0,
        Err(operator::Refusal::OutOfRange) => 4,
        Err(operator::Refusal::OddParity) => 6,
        Err(operator::Refusal::NotSpecial) => 7,
    }
}

// Whether the image, the determinant and the inverse are the row's.
pub fn image_right(row: &[u8]) -> bool {
    let n = Numbers::of(row);
    let v = n.values;
    let Some(g) = console_arguments::operator_at(&v, 0) else {
        return false;
    };
    let Some(h) = console_arguments::operator_at(&v, 17) else {
        return false;
    };
    (n.count == 25) & sends(g, v) & has_determinant(g, v[16]) & inverts(g, h)
}

// Whether g sends the row's point to the row's image.
fn sends(g: Operator, n: [i64; WIDTH]) -> bool {
    let Some(v) = console_arguments::point_at(&n, 8) else {
        return false;
    };
    let w = g.image(v);
    [w.a, w.b, w.c, w.d] == [n[12], n[13], n[14], n[15]]
}

fn has_determinant(g: Operator, p: i64) -> bool {
    let e = operator_matrices::determinant_of(g);
    (e.p == p) & (e.q == 0)
}

// Whether h is the inverse of g.
fn inverts(g: Operator, h: Operator) -> bool {
    let Ok(i) = g.inverse() else {
        return false;
    };
    [i.a, i.b, i.c, i.d, i.ai, i.bi, i.ci, i.di] == [h.a, h.b, h.c, h.d, h.ai, h.bi, h.ci, h.di]
}
