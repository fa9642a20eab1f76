// Tariffs, costs, what was written, and pattern sheets.
ghost use Rattle.std.specs.Prelude.{◌≡◌};
ghost use Rattle.library_calls.specs.Companions.{tariff_of, costs, ticks_of, wrote, wrote_of, seen, seen_of, sheet_of, put_of};

use gate_tariff::Tariff;
use library_numbers::Four;
use pattern_sheet::{Reading, Sheet};
use ring::Point;

// The prices of the letters, in thousandths of a tick.
#[repr(C)]
#[derive(Clone, Copy)]
pub struct Prices {
    pub h: u32,
    pub s: u32,
    pub t: u32,
    pub w: u32,
}

// The number of a refusal, or 0, the cost in ticks and whether it fits the memory.
#[repr(C)]
#[derive(Clone, Copy)]
pub struct Ticks {
    pub number: u8,
    pub fits: u8,
    pub ticks: u32,
}

// The number of a refusal, or 0 and how many bytes were written.
#[repr(C)]
#[derive(Clone, Copy)]
pub struct Wrote {
    pub number: u8,
    pub count: usize,
}

// The number of a refusal, or 0, the bytes taken and what the reader sees: the desk k, u, t and the ticks, the crew m and the ticks. The rest is 0.
#[repr(C)]
#[derive(Clone, Copy)]
pub struct Seen {
    pub number: u8,
    pub k: u8,
    pub ticks: u32,
    pub taken: usize,
    pub m: u64,
    pub u: Four,
    pub t: Four,
}

// All that is written on a pattern sheet.
#[repr(C)]
#[derive(Clone, Copy)]
pub struct PlainSheet {
    pub k: u8,
    pub u: Four,
    pub t: Four,
    pub ticks: u32,
}

pub fn tariff_of(p: Prices) -> Tariff
    ensures { result ≡ tariff_of p }
{
    Tariff {
        h: p.h,
        s: p.s,
        t: p.t,
        w: p.w,
    }
}

pub fn costs(number: u8, fits: bool, ticks: u32) -> Ticks
    ensures { result ≡ costs number fits ticks }
{
    Ticks {
        number: number,
        fits: library_numbers::flag(fits),
        ticks: ticks,
    }
}

pub fn ticks_of(a: Result<(u32, bool), gate_tariff::Refusal>) -> Ticks
    ensures { result ≡ ticks_of a }
{
    match a {
        Ok((n, fits)) => costs(0, fits, n),
        Err(f) => costs(f.number(), false, 0),
    }
}

pub fn written(number: u8, count: usize) -> Wrote
    ensures { result ≡ wrote number count }
{
    Wrote {
        number: number,
        count: count,
    }
}

pub fn wrote_of(a: Result<usize, gate_qasm::Refusal>) -> Wrote
    ensures { result ≡ wrote_of a }
{
    match a {
        Ok(n) => written(0, n),
        Err(f) => written(f.number(), 0),
    }
}

pub fn sheet_seen(number: u8, taken: usize, m: u64, k: u8, u: Point, t: Point, ticks: u32) -> Seen
    ensures { result ≡ seen number taken m k u t ticks }
{
    Seen {
        number: number,
        k: k,
        ticks: ticks,
        taken: taken,
        m: m,
        u: library_numbers::four_of(u),
        t: library_numbers::four_of(t),
    }
}

const ORIGIN: Point = Point {
    a: 0,
    b: 0,
    c: 0,
    d: 0,
};

pub fn seen_of(r: Reading) -> Seen
    ensures { result ≡ seen_of r }
{
    match r {
        Reading::Desk(x, n) => sheet_seen(0, n, 0, x.k, x.u, x.t, x.ticks),
        Reading::Crew(m, ticks, n) => sheet_seen(0, n, m, 0, ORIGIN, ORIGIN, ticks),
        Reading::Refused(f) => sheet_seen(f.number(), 0, 0, 0, ORIGIN, ORIGIN, 0),
    }
}

pub fn sheet_of(s: PlainSheet) -> Sheet
    ensures { result ≡ sheet_of s }
{
    let u = library_numbers::point_of(s.u);
    let t = library_numbers::point_of(s.t);
    Sheet {
        k: s.k,
        u: u,
        t: t,
        ticks: s.ticks,
    }
}

pub fn put_of(w: Result<usize, pattern_sheet::Refusal>) -> Wrote
    ensures { result ≡ put_of w }
{
    match w {
        Ok(n) => written(0, n),
        Err(f) => written(f.number(), 0),
    }
}
