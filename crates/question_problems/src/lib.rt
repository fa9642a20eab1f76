// Line problems: the pairs (p, q) with p + q√2 in one strip and p − q√2 in another, row by row. The pairs stand for the numbers `back` times p + q√2.
#![tactic(auto)]

ghost use Rattle.std.specs.Prelude.{◌≡◌, ◌^◌, ◌≤◌, false};
ghost use Rattle.ring.specs.RootTwo.{◌⊟◌, ◌⊠◌};
ghost use Rattle.ring.specs.RootTwo.Order.{nonneg};
ghost use Rattle.ring.specs.RootTwo.Sized.{Sized};
ghost use Rattle.line_rows.specs.Row.{coordinate, lower, upper, Least};
ghost use Rattle.question_strips.specs.Strips.{Ends};
ghost use Rattle.question_problems.specs.Rows.{middle, top, pair_at, joined_of};
ghost use Rattle.question_problems.specs.Lines.{Searchable, Pairless, rowless, LineWith, LineOf};

pub mod halves;

use line_rows::Band;
use question_strips::{Strips, units};
use ring::RootTwo;
use ring_surds::{combined, conjugate, is_nonneg, product};

// The digit of 0, and the number of digits.
pub const HALF: u64 = 549755813888;

pub const TOP: u64 = 1099511627776;

// Two strips, what the pairs are multiplied by, and the first row and the one after the last.
#[derive(Clone, Copy)]
pub struct Problem {
    pub first: Band,
    pub second: Band,
    pub back: RootTwo,
    pub from: u64,
    pub end: u64,
}

// The strip of 2p = ζ + ζ•, and so of the rows.
fn joined(s: Band, t: Band) -> Band
    requires { Ends s × Ends t }
    ensures { result ≡ joined_of s t }
{
    Band {
        m: 2 * (s.m * t.m),
        lo: combined(t.m, s.lo, s.m, t.lo),
        hi: combined(t.m, s.hi, s.m, t.hi),
    }
}

// Whether lo ≤ hi.
fn is_proper(s: Band) -> bool
    requires { Ends s }
    ensures { result ≡ nonneg (s.hi ⊟ s.lo) }
{
    let d = combined(1, s.hi, -1, s.lo);
    is_nonneg(d)
}

// The line without rows.
fn without_rows(s: Strips, back: RootTwo) -> Problem
    ensures { result ≡ rowless s back }
{
    let f = s.first;
    let g = s.second;
    Problem {
        first: f,
        second: g,
        back: back,
        from: 0,
        end: 0,
    }
}

// The line with its rows: none where a strip is empty.
fn with_rows(s: Strips, back: RootTwo) -> Problem
    requires { Ends s.first × Ends s.second × Sized (2 ^ 17) (2 ^ 17) back }
    ensures { LineWith s back result }
{
    let f = s.first;
    let g = s.second;
    if !is_proper(f) {
        return without_rows(s, back);
    }
    if !is_proper(g) {
        return without_rows(s, back);
    }
    let j = joined(f, g);
    let h = j.hi;
    let u = Band {
        m: j.m,
        lo: h,
        hi: h,
    };
    Problem {
        first: f,
        second: g,
        back: back,
        from: line_rows::first(j, HALF, TOP),
        end: line_rows::first(u, HALF, TOP) + 1,
    }
}

// The line of two strips, scaled so that its rows are few.
pub fn of_strips(s: Strips) -> Problem
    requires { Ends s.first × Ends s.second }
    ensures { LineOf s result }
{
    let u = units::balance(s);
    let t = units::scaled(s, u);
    if units::fits(t) {
        with_rows(t, conjugate(u))
    } else {
        with_rows(s, RootTwo { p: 1, q: 0 })
    }
}

// The least digit of a row's q at which two of the four bounds hold: they hold from there on.
pub fn start(l: Problem, t: u64) -> u64
    requires { Searchable l × (t ≤ top) }
    ensures { Least (λ q. lower l.first l.second (coordinate middle t) (coordinate middle q)) 0 top result }
{
    line_rows::least(l.first, l.second, HALF, t, 0, TOP)
}

// Whether the other two bounds hold: they hold up to some digit.
pub fn reaches(l: Problem, t: u64, q: u64) -> bool
    requires { Searchable l × (t ≤ top) × (q ≤ top) }
    ensures { result ≡ upper l.first l.second (coordinate middle t) (coordinate middle q) }
{
    line_rows::upper(l.first, l.second, HALF, t, q)
}

// Whether a pair lies in the line.
pub fn has_pair(l: Problem) -> bool
    requires { Searchable l }
    ensures { result ≡ false → Pairless l }
{
    for t in l.from..l.end {
        let q = start(l, t);
        if q < TOP {
            if reaches(l, t, q) {
                return true;
            }
        }
    }
    false
}

// What a pair of digits stands for.
pub fn number(l: Problem, t: u64, q: u64) -> RootTwo
    requires { Searchable l × (t ≤ top) × (q ≤ top) }
    ensures { (result ≡ l.back ⊠ pair_at t q) × Sized (2 ^ 60) (2 ^ 60) result }
{
    product(l.back, line_rows::pair(HALF, t, q))
}
