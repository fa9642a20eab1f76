// The words of gates that spell a matrix: SPEC, "Gate words". Theorems only; the code that writes the words is in `gates`.
#![tactic(auto)]

use ring::Point;

// The parities of a point's coordinates: true is odd.
#[derive(Clone, Copy)]
pub struct Bits {
    pub a: bool,
    pub b: bool,
    pub c: bool,
    pub d: bool,
}

// The matrix with rows (u, −ω^l t†) and (t, ω^l u†), over √2^k.
#[derive(Clone, Copy)]
pub struct State {
    pub k: u32,
    pub u: Point,
    pub t: Point,
    pub l: u32,
}
