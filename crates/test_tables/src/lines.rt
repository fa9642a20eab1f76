// Rows `nA lo hi nB lo hi | after | space | answer`: after is a pair or -, the space counts pairs, and the answer is `refused 4` or the count, yes or no for the end, and the pairs.
use crate::handed;
use crate::handed::Given;
use line::{Answer, Place};
use test_rows::{Numbers, WIDTH};

// Whether the list of the line problem is the row's.
pub fn right(row: &[u8]) -> bool {
    let mut out = [0i32; 200];
    let n = Numbers::of(row);
    let at = handed::asked(row);
    let g = asked(n.values, at, &mut out);
    handed::is_answer(g, &out, row, n, at)
}

// The answer for a row's intervals, into as much as the row lends, its number at a place.
fn asked(v: [i64; WIDTH], at: usize, out: &mut [i32]) -> Given {
    let Some(first) = console_arguments::interval_at(&v, 0) else {
        return Given::NotCalled;
    };
    let Some(second) = console_arguments::interval_at(&v, 3) else {
        return Given::NotCalled;
    };
    let Some(place) = place_of(v, at) else {
        return Given::NotCalled;
    };
    let l = 2 * handed::lent(v, at);
    if out.len() < l {
        return Given::NotCalled;
    }
    match line::pairs(first, second, place, &mut out[..l]) {
        Answer::Handed(count, ended) => Given::Handed(count, ended, count.wrapping_mul(2)),
        Answer::Refused => Given::Refused,
    }
}

// The place after the row's pair, where that stands before so many numbers; where it has none, the beginning.
fn place_of(v: [i64; WIDTH], at: usize) -> Option<Place> {
    match at {
        6 => Some(Place::Beginning),
        8 => after(v[6], v[7]),
        _ => None,
    }
}

fn after(a: i64, b: i64) -> Option<Place> {
    let a = integers::to_i32(a)?;
    let b = integers::to_i32(b)?;
    Some(Place::After(a, b))
}
