// Numbers of two words, places, intervals and hand-outs.
ghost use Rattle.std.specs.Prelude.{◌≡◌, false};
ghost use Rattle.refusals.specs.Refusals.{beyond_range};
ghost use Rattle.library_calls.specs.Alone.{wide_of, entry_place, line_place, interval_of, handedAs};

use integers_wide::Wide;
use library_numbers::Four;
use line::Interval;
use ring::Point;

// hi·2^64 + lo, a number of two words.
#[repr(C)]
#[derive(Clone, Copy)]
pub struct TwoWords {
    pub hi: i64,
    pub lo: u64,
}

// A hand-out's count and end, or the number of its refusal.
#[repr(C)]
#[derive(Clone, Copy)]
pub struct Handed {
    pub number: u8,
    pub ended: u8,
    pub count: usize,
}

// The number of a refusal, or which slice has the word with fewer T, 0 the first, and how long it is.
#[repr(C)]
#[derive(Clone, Copy)]
pub struct Word {
    pub number: u8,
    pub second: u8,
    pub length: usize,
}

// lo ≤ n·z ≤ hi.
#[repr(C)]
#[derive(Clone, Copy)]
pub struct Three {
    pub n: i32,
    pub lo: i32,
    pub hi: i32,
}

pub fn wide(x: TwoWords) -> Wide
    ensures { result ≡ wide_of x }
{
    Wide { hi: x.hi, lo: x.lo }
}

pub fn counted(count: usize, end: bool) -> Handed
    ensures { handedAs result count end 0 }
{
    Handed {
        number: 0,
        ended: library_numbers::flag(end),
        count: count,
    }
}

pub fn refused() -> Handed
    ensures { handedAs result 0 false beyond_range }
{
    Handed {
        number: refusals::OUT_OF_RANGE,
        ended: 0,
        count: 0,
    }
}

pub fn entry_place(after: u8, v: Four) -> Option<Point>
    ensures { result ≡ entry_place after v }
{
    if after == 0 {
        return None;
    }
    Some(library_numbers::point_of(v))
}

pub fn line_place(after: u8, a: i32, b: i32) -> line::Place
    ensures { result ≡ line_place after a b }
{
    if after == 0 {
        return line::Place::Beginning;
    }
    line::Place::After(a, b)
}

pub fn interval_of(i: Three) -> Interval
    ensures { result ≡ interval_of i }
{
    Interval {
        n: i.n,
        lo: i.lo,
        hi: i.hi,
    }
}
