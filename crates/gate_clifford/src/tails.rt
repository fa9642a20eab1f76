// The tails: a word in H, S and W for each of the 192 Clifford matrices with phase.
ghost use Rattle.std.specs.Prelude.{◌≡◌, cond, ◌+◌, ◌<◌, ◌≤◌, get_or};
ghost use Rattle.gate_theory.specs.Table.{positive, negative, log, index, tails, tail};
ghost use Rattle.gate_clifford.specs.Written.{Adds, Writes};

use crate::letters::{Word, empty, unpack};
use gate_theory::State;
use ring::Point;

// Packed: digits to the base 4, H = 1, S = 2, W = 3, the first letter highest.
const TAILS: [u32; 192] = [
    0, 2, 10, 42, 171, 3, 11, 43, 175, 687, 15, 47, 191, 703, 2751, 63, 255, 767, 2815, 11007,
    44031, 1023, 3071, 11263, 45055, 176127, 4095, 12287, 49151, 180223, 704511, 16383, 1690, 6762,
    105, 422, 1691, 6763, 6809, 423, 1695, 6767, 27055, 617, 2471, 6783, 27071, 39577, 2665, 9887,
    27135, 108287, 170649, 10663, 39551, 108543, 434175, 10857, 42655, 158207, 105114, 420458,
    6569, 26278, 26, 106, 1, 6, 27, 107, 153, 7, 31, 111, 431, 615, 2463, 127, 447, 1727, 6911,
    9855, 511, 1791, 7167, 27647, 39423, 2047, 8191, 28671, 110591, 157695, 630783, 32767, 43433,
    173734, 38, 154, 618, 9, 39, 155, 619, 665, 2663, 159, 623, 2479, 9919, 10655, 639, 2495, 9983,
    39679, 42623, 2559, 10239, 39935, 158719, 170495, 108198, 40959, 159743, 27049, 1702, 6810,
    27242, 425, 41, 166, 666, 2666, 2713, 167, 667, 2667, 10671, 1641, 671, 2671, 10687, 42687,
    6567, 2687, 10751, 42751, 6761, 26271, 105087, 43007, 171007, 27047, 108191, 420351, 172031,
    27241, 2473, 9894, 39578, 158314, 10858, 169, 678, 2714, 1642, 25, 102, 410, 1643, 1689, 103,
    411, 1647, 6575, 6759, 415, 1663, 6591, 26303, 27039, 108159, 6655, 26367, 105215, 158313,
    432639, 26623, 105471, 421887, 10665, 42662, 106495,
];

fn positive(z: i32) -> bool
    ensures { result ≡ positive z }
{
    0 < z
}

fn negative(z: i32) -> bool
    ensures { result ≡ negative z }
{
    z < 0
}

fn pick(b: bool, x: usize, y: usize) -> usize
    ensures { result ≡ cond b x y }
{
    if b { x } else { y }
}

// v is ω to this power; 8 for 0. Picks and no chain of ifs: `log` of the specs nests its cases so.
fn log(v: Point) -> usize
    ensures { (result ≡ log v) × (result ≤ 8) }
{
    let minus = pick(
        negative(v.d),
        4,
        pick(
            negative(v.c),
            5,
            pick(negative(v.b), 6, pick(negative(v.a), 7, 8)),
        ),
    );
    pick(
        positive(v.d),
        0,
        pick(
            positive(v.c),
            1,
            pick(positive(v.b), 2, pick(positive(v.a), 3, minus)),
        ),
    )
}

// The place of (u, t) with phase 2m.
fn index(u: Point, t: Point, m: usize) -> usize
    requires { m < 4 }
    ensures { (result ≡ index u t m) × (result < 192) }
{
    let a = log(u);
    let b = log(t);
    if b == 8 {
        return a * 4 + m;
    }
    if a == 8 {
        return 32 + b * 4 + m;
    }
    64 + (b + 8 - a) % 8 / 2 * 32 + a * 4 + m
}

fn entry(i: usize) -> u32
    requires { i < 192 }
    ensures { result ≡ get_or tails i 0 }
{
    TAILS[i]
}

// The tail of a state, written behind w.
pub fn tail(w: Word, s: State) -> Word
    requires { w.len + 10 ≤ 128 }
    ensures { Adds w (tail s) result }
{
    let m = (s.l % 8 / 2) as usize;
    unpack(w, 10, entry(index(s.u, s.t, m)))
}

// The tail of a state by itself.
pub fn tail_word(s: State) -> Word
    ensures { Writes result (tail s) }
{
    tail(empty(), s)
}
