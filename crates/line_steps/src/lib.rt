// The line problem of two intervals by the steps of Algorithm 2.2 (the Note) in its order: shift by α₀, scale by a power of λ = 1 + √2, then a and b. SPEC, "Line problem".
#![tactic(auto)]

mod ends;
mod pair_rows;
mod reduce;
mod steps;

pub use ends::{first_row, past, strip};
use line_rows::Band;
pub use pair_rows::{next, onward};
pub use reduce::reduced;
use ring::RootTwo;

// Coordinates of a pair lie within ±10,000; a coordinate's digit is its distance from the lowest.
pub const BOUND: u64 = 10000;

// How many digits there are.
pub const SPAN: u64 = 2 * BOUND + 1;

// lo ≤ n·z ≤ hi, ends included.
#[derive(Clone, Copy)]
pub struct Interval {
    pub n: i32,
    pub lo: i32,
    pub hi: i32,
}

// The digits a + 10,000 and b + 10,000.
#[derive(Clone, Copy)]
pub struct Digits {
    pub a: u64,
    pub b: u64,
}

// The problem after the shift and the scaling: t = J − α₀•, f = λ^n (I − α₀), g = (λ•)^n (J − α₀•), the rows a_min to a_max, and the digit of 0 there. A pair is λ^−n times a pair
// of f and g, plus α₀, and the conjugate of that where the sides are exchanged. Where no side is thin, α₀ is 0 and λ^n is 1.
#[derive(Clone, Copy)]
pub struct Scaled {
    pub thin: bool,
    pub turned: bool,
    pub half: u64,
    pub o: RootTwo,
    pub u: RootTwo,
    pub t: Band,
    pub f: Band,
    pub g: Band,
    pub rows: Band,
}
