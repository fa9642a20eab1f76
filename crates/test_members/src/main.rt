// Compares a table of another implementation (data/, one row a line) with what the library says of slices, as A and as B, and prints how many rows differ.
// Rows `k | A or B | n zx zy w | a b c d | yes or no`.
#![tactic(auto)]

use region::{Job, Rectangle, Region, Slice};
use test_rows::Numbers;

fn main(rt: HostRuntime) {
    test_rows::compare(&rt, b"members", b"member.txt", |row, _| { right(row) });
}

// Whether the job with the row's slice on its side says of the row's point what the row says.
fn right(row: &[u8]) -> bool {
    let n = Numbers::of(row).values;
    let Some(k) = console_arguments::byte_of(n[0]) else {
        return false;
    };
    let Some(v) = console_arguments::point_at(&n, 5) else {
        return false;
    };
    let Some(a) = slice_of(n[1], n[2], n[3], n[4]) else {
        return false;
    };
    let j = job_of(k, a, row.contains(&b'B'));
    region_membership::solves(j, v) == row.contains(&b'y')
}

fn slice_of(n: i64, zx: i64, zy: i64, w: i64) -> Option<Slice> {
    let n = console_arguments::byte_of(n)?;
    let zx = integers::to_i16(zx)?;
    let zy = integers::to_i16(zy)?;
    let w = integers::to_i32(w)?;
    Some(Slice {
        n: u16::from(n),
        zx,
        zy,
        w,
    })
}

// The slice as B or as A; the other side is a square that holds all points of the table and their conjugates.
fn job_of(k: u8, s: Slice, second: bool) -> Job {
    let (a, b) = if second {
        (square(), Region::Slice(s))
    } else {
        (Region::Slice(s), square())
    };
    Job { k, all: true, a, b }
}

fn square() -> Region {
    Region::Rectangle(Rectangle {
        n: 1,
        xl: -10000,
        xh: 10000,
        yl: -10000,
        yh: 10000,
    })
}
