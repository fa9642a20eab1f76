// Grid operators.
use console_replies::{Line, Value};
use operator::{Operator, WidePoint};
use operator_matrices::Entry;
use record::Refusal;
use text_words::Numbers;

// `operator`, `inverse`, `matrix`, `determinant`, each with E1 .. E8.
pub fn operator(c: usize, n: Numbers) -> Line {
    if n.count != 8 {
        return Line::Bad;
    }
    let Some(g) = console_arguments::operator_at(&n.values, 0) else {
        return Line::Bad;
    };
    match c {
        text_words::OPERATOR => test(g, Value::Nothing),
        text_words::INVERSE => inverse_of(g),
        text_words::MATRIX => Line::Good(matrix(operator_matrices::of(g))),
        _ => Line::Good(entry(operator_matrices::determinant_of(g))),
    }
}

// A value, for an operator that passes its test.
fn test(g: Operator, v: Value) -> Line {
    match g.check() {
        Ok(()) => Line::Good(v),
        Err(operator::Refusal::OutOfRange) => Line::Refused(Refusal::OutOfRange.number()),
        Err(operator::Refusal::OddParity) => Line::Refused(Refusal::OddParity.number()),
        Err(operator::Refusal::NotSpecial) => Line::Refused(Refusal::NotSpecial.number()),
    }
}

fn inverse_of(g: Operator) -> Line {
    match g.inverse() {
        Ok(h) => Line::Good(console_replies::of_operator(h)),
        Err(_) => test(g, Value::Nothing),
    }
}

// Row by row, each entry p + q/√2 as p and q.
fn matrix(m: [[Entry; 2]; 2]) -> Value {
    Value::Eight(row(m[0][0], m[0][1]), row(m[1][0], m[1][1]))
}

fn row(x: Entry, y: Entry) -> WidePoint {
    WidePoint {
        a: x.p,
        b: x.q,
        c: y.p,
        d: y.q,
    }
}

fn entry(x: Entry) -> Value {
    Value::Two(x.p, x.q)
}

// `apply E1 .. E8 A B C D`.
pub fn apply(n: Numbers) -> Line {
    if n.count != 12 {
        return Line::Bad;
    }
    let Some(g) = console_arguments::operator_at(&n.values, 0) else {
        return Line::Bad;
    };
    let Some(v) = console_arguments::point_at(&n.values, 8) else {
        return Line::Bad;
    };
    test(g, Value::Four(g.image(v)))
}

// `product E1 .. E8 F1 .. F8`.
pub fn product(n: Numbers) -> Line {
    if n.count != 16 {
        return Line::Bad;
    }
    let Some(g) = console_arguments::operator_at(&n.values, 0) else {
        return Line::Bad;
    };
    let Some(h) = console_arguments::operator_at(&n.values, 8) else {
        return Line::Bad;
    };
    Line::Good(matrix(operator_matrices::product_of(g, h)))
}
