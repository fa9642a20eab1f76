// The generators of the Note, Algorithm 3.13, and the composition of operators within range.
use crate::parts::{im, one};
use crate::usable;
use operator::{Operator, WidePoint};

// Generators and their inverses.
pub(crate) const GENERATORS: u64 = 30;

// Four numbers of an operator, where they fit.
#[derive(Clone, Copy)]
enum Half {
    Fits(i16, i16, i16, i16),
    TooWide,
}

pub(crate) fn sending(
    a: i16,
    b: i16,
    c: i16,
    d: i16,
    ai: i16,
    bi: i16,
    ci: i16,
    di: i16,
) -> Operator {
    Operator {
        a,
        b,
        c,
        d,
        ai,
        bi,
        ci,
        di,
    }
}

// R, K, K•, and shears by 2m + n√2: those of x, and of y.
fn generator(i: u64) -> Operator {
    match i {
        0 => sending(0, 0, 1, 0, 1, 0, 0, 0),
        1 => sending(-1, -1, 0, 0, 0, -1, 1, 0),
        2 => sending(1, -1, 0, 0, 0, -1, -1, 0),
        3 => sending(0, 0, 0, 1, -1, 1, 1, 0),
        4 => sending(0, 0, 0, 1, 0, 1, 0, 2),
        5 => sending(0, 0, 0, 1, -1, 1, 1, 2),
        6 => sending(0, 0, 0, 1, 1, 1, -1, 2),
        7 => sending(0, 0, 0, 1, -3, 1, 3, 4),
        8 => sending(0, 0, 0, 1, 3, 1, -3, 4),
        9 => sending(1, 0, 1, 1, 0, 1, 0, 0),
        10 => sending(0, 2, 0, 1, 0, 1, 0, 0),
        11 => sending(1, 2, 1, 1, 0, 1, 0, 0),
        12 => sending(-1, 2, -1, 1, 0, 1, 0, 0),
        13 => sending(3, 4, 3, 1, 0, 1, 0, 0),
        _ => sending(-3, 4, -3, 1, 0, 1, 0, 0),
    }
}

// The generators in turn, each with its inverse.
pub(crate) fn turned(i: u64) -> Operator {
    let g = usable(generator(i / 2));
    if i % 2 == 0 { g.there } else { g.back }
}

fn halved(w: WidePoint) -> Half {
    let Some(a) = integers::to_i16(w.a) else {
        return Half::TooWide;
    };
    let Some(b) = integers::to_i16(w.b) else {
        return Half::TooWide;
    };
    let Some(c) = integers::to_i16(w.c) else {
        return Half::TooWide;
    };
    let Some(d) = integers::to_i16(w.d) else {
        return Half::TooWide;
    };
    Half::Fits(a, b, c, d)
}

// The operator g after h, or h where its numbers are too large.
pub(crate) fn composed(g: Operator, h: Operator) -> Operator {
    let o = halved(g.image(one(h)));
    let i = halved(g.image(im(h)));
    match o {
        Half::Fits(a, b, c, d) => match i {
            Half::Fits(ai, bi, ci, di) => sending(a, b, c, d, ai, bi, ci, di),
            Half::TooWide => h,
        },
        Half::TooWide => h,
    }
}
