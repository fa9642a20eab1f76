// Rows `k v | after | space | answer`: after is a point or -, the space counts points, and the answer is `refused 4` or the count, yes or no for the end, and the points.
use crate::handed;
use crate::handed::Given;
use entry::Answer;
use ring::Point;
use test_rows::{Numbers, WIDTH};

// Whether the list of the other entries is the row's.
pub fn right(row: &[u8]) -> bool {
    let mut out = [0i32; 400];
    let n = Numbers::of(row);
    let at = handed::asked(row);
    let g = asked(n.values, at, &mut out);
    handed::is_answer(g, &out, row, n, at)
}

// The answer for a row's scale and point, into as much as the row lends, its number at a place.
fn asked(w: [i64; WIDTH], at: usize, out: &mut [i32]) -> Given {
    let Some((k, v)) = console_arguments::scaled_at(&w, 0) else {
        return Given::NotCalled;
    };
    let Some(place) = place_of(w, at) else {
        return Given::NotCalled;
    };
    let l = 4 * handed::lent(w, at);
    if out.len() < l {
        return Given::NotCalled;
    }
    match entry::hand_out(k, v, place, &mut out[..l]) {
        Answer::Handed(count, ended) => Given::Handed(count, ended, count.wrapping_mul(4)),
        Answer::Refused => Given::Refused,
    }
}

// The place after the row's point, where that stands before so many numbers; where it has none, the beginning.
fn place_of(w: [i64; WIDTH], at: usize) -> Option<Option<Point>> {
    match at {
        5 => Some(None),
        9 => after(w),
        _ => None,
    }
}

fn after(w: [i64; WIDTH]) -> Option<Option<Point>> {
    let p = console_arguments::point_at(&w, 5)?;
    Some(Some(p))
}
