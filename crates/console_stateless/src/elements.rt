// Numbers p + q√2 and points.
use console_replies::{Line, Value};
use operator::Operator;
use record::Refusal;
use ring::{Point, RootTwo, Sign};
use text_words::{Numbers, Pair};

// `sign P Q`, with numbers of two words.
pub fn sign(line: &[u8], from: usize) -> Line {
    match text_words::pair_from(line, from) {
        Pair::Both(p, q) => Line::Good(Value::One(number(ring_signs::wide_sign_of(p, q)))),
        Pair::Bad => Line::Bad,
    }
}

fn number(s: Sign) -> i64 {
    match s {
        Sign::Minus => -1,
        Sign::Zero => 0,
        Sign::Plus => 1,
    }
}

// `exponent K A B C D`.
pub fn exponent(n: Numbers) -> Line {
    if n.count != 5 {
        return Line::Bad;
    }
    let Some((k, v)) = console_arguments::scaled_at(&n.values, 0) else {
        return Line::Bad;
    };
    exponent_at(k, v)
}

fn exponent_at(k: u8, v: Point) -> Line {
    if !record_ranges::scale(k) {
        return Line::Refused(Refusal::OutOfRange.number());
    }
    let e = v.exponent(k);
    Line::Good(Value::Pair(u64::from(e), ring::pulse_count(e)))
}

// `real`, `imaginary`, `divide`, each with A B C D.
pub fn point(c: usize, n: Numbers) -> Line {
    if n.count != 4 {
        return Line::Bad;
    }
    let Some(v) = console_arguments::point_at(&n.values, 0) else {
        return Line::Bad;
    };
    match c {
        text_words::REAL => Line::Good(root(v.real())),
        text_words::IMAGINARY => Line::Good(root(v.imaginary())),
        _ => Line::Good(quotient(v.divide_root2())),
    }
}

fn root(x: RootTwo) -> Value {
    Value::Two(x.p, x.q)
}

fn quotient(q: Option<Point>) -> Value {
    match q {
        Some(v) => console_replies::of_point(v),
        None => Value::Says(false),
    }
}

// The elements and the operator that have names.
pub fn named(c: usize, n: Numbers) -> Line {
    if n.count != 0 {
        return Line::Bad;
    }
    match c {
        text_words::LAMBDA => Line::Good(root(RootTwo::lambda())),
        text_words::OMEGA => Line::Good(console_replies::of_point(Point::omega())),
        text_words::DELTA => Line::Good(console_replies::of_point(Point::delta())),
        text_words::IDENTITY => Line::Good(console_replies::of_operator(Operator::identity())),
        _ => Line::Bad,
    }
}
