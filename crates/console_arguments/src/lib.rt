// Whole numbers of 64 bits as what a call takes, where they fit: a point, a scale, an interval, an operator.
#![tactic(auto)]

use line::Interval;
use operator::{Operator, WidePoint};
use ring::Point;

// The N numbers from a place on, where they are there.
fn numbers_at<const N: usize>(n: &[i64], at: usize) -> Option<[i64; N]> {
    n.get(at..)?.first_chunk().copied()
}

// The point of the four numbers from a place on, where they are there and fit.
pub fn point_at(n: &[i64], at: usize) -> Option<Point> {
    let v = numbers_at::<4>(n, at)?;
    let [a, b, c, d] = v;
    let w = WidePoint { a, b, c, d };
    w.narrow()
}

// The byte of a number.
pub fn byte_of(k: i64) -> Option<u8> {
    u8::try_from(k).ok()
}

// A number that has no sign.
pub fn natural_of(n: i64) -> Option<u64> {
    u64::try_from(n).ok()
}

// The word of a number.
pub fn word_of(n: i64) -> Option<u32> {
    u32::try_from(n).ok()
}

// The scale and the point of the five numbers from a place on, where they are there and fit.
pub fn scaled_at(n: &[i64], at: usize) -> Option<(u8, Point)> {
    if n.len() <= at {
        return None;
    }
    let k = byte_of(n[at])?;
    let v = point_at(n, at + 1)?;
    Some((k, v))
}

// The interval of the three numbers from a place on, n, lo, hi, where they are there and fit.
pub fn interval_at(n: &[i64], at: usize) -> Option<Interval> {
    let v = numbers_at::<3>(n, at)?;
    let [n, lo, hi] = v;
    interval_of(n, lo, hi)
}

fn interval_of(n: i64, lo: i64, hi: i64) -> Option<Interval> {
    let n = integers::to_i32(n)?;
    let lo = integers::to_i32(lo)?;
    let hi = integers::to_i32(hi)?;
    Some(Interval { n, lo, hi })
}

fn shorts_of(a: i64, b: i64, c: i64, d: i64) -> Option<(i16, i16, i16, i16)> {
    let a = integers::to_i16(a)?;
    let b = integers::to_i16(b)?;
    let c = integers::to_i16(c)?;
    let d = integers::to_i16(d)?;
    Some((a, b, c, d))
}

// The operator of the eight numbers from a place on, those of G(1), then those of G(i), where they are there and fit.
pub fn operator_at(n: &[i64], at: usize) -> Option<Operator> {
    let v = numbers_at::<8>(n, at)?;
    let [a, b, c, d, ai, bi, ci, di] = v;
    let (a, b, c, d) = shorts_of(a, b, c, d)?;
    let (ai, bi, ci, di) = shorts_of(ai, bi, ci, di)?;
    Some(Operator {
        a,
        b,
        c,
        d,
        ai,
        bi,
        ci,
        di,
    })
}
