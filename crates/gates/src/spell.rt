// The word of a matrix.
ghost use Rattle.std.specs.Prelude.{◌≡◌, ◌^◌, ◌<◌, ◌≤◌};
ghost use Rattle.record_ranges.specs.Ranges.{top_scale};
ghost use Rattle.gate_theory.specs.Points.{turn};
ghost use Rattle.gate_theory.specs.State.{Equation, is_bare, Stage};
ghost use Rattle.gate_theory.specs.Word.{syllables, without-T, bare_at_zero, body, word};
ghost use Rattle.gates.specs.Written.{Adds, Writes};
ghost use Rattle.gates.specs.Going.{Going};
ghost use Rattle.gates.specs.Start.{lead, start};

use crate::elements::{over_omega, times_omega};
use crate::letters::syllable;
use crate::parity::{bare, odd, parities, plain};
use crate::states::{next, reduce};
use gate_clifford::{Word, empty, push, tail};
use gate_theory::State;
use ring::Point;

// No T in front; for a Clifford matrix there is none.
fn is_plain(s: State) -> bool
    ensures { result ≡ bare_at_zero s }
{
    if s.k == 0 {
        return true;
    }
    plain(parities(s.u), parities(s.t))
}

// No S in front.
fn is_bare(s: State) -> bool
    ensures { result ≡ is_bare s }
{
    bare(parities(s.u), parities(s.t))
}

// How many times HT or SHT, of a state without a T in front.
fn syllables(s: State) -> u32
    requires { Stage (syllables s) s × (s.k ≤ top_scale) × (s.l < 2 ^ 31) }
    ensures { result ≡ syllables s }
{
    if s.k == 0 {
        return 0;
    }
    if odd(parities(s.u)) {
        return 2 * s.k - 2 + s.l % 2;
    }
    2 * s.k - 3 + (s.l + 1) % 2
}

// T taken off the front.
fn without_t(s: State) -> State
    requires { Equation s.k s.u s.t × (s.k ≤ top_scale) × (s.l < 2 ^ 31) }
    ensures { result ≡ without-T s }
{
    let u = s.u;
    let t = over_omega(s.t);
    State {
        k: s.k,
        u,
        t,
        l: s.l + 7,
    }
}

// r syllables and the tail, written behind w.
fn body(w: Word, s: State, r: u32) -> Word
    requires { Going r s w }
    ensures { Adds w (body r s) result }
{
    let mut out = w;
    let mut x = s;
    for _ in 0..r {
        out = syllable(out, is_bare(x));
        x = next(x);
    }
    tail(out, x)
}

// T, unless the word has none in front.
fn lead(plain: bool) -> Word
    ensures { Writes result (lead plain) × (result.len ≤ 1) }
{
    if plain {
        return empty();
    }
    push(empty(), b'T')
}

// What is left behind it.
fn start(plain: bool, s: State) -> State
    requires { Equation s.k s.u s.t × (s.k ≤ top_scale) × (s.l < 2 ^ 31) }
    ensures { result ≡ start plain s }
{
    if plain {
        return s;
    }
    without_t(s)
}

// The word of the matrix with rows (u, −t†) and (t, u†) over √2^k.
pub fn word(k: u32, u: Point, t: Point) -> Word
    requires { Equation k u t × (k ≤ top_scale) }
    ensures { Writes result (word k u t) }
{
    let s = reduce(k, u, t);
    let plain = is_plain(s);
    let x = start(plain, s);
    body(lead(plain), x, syllables(x))
}

// The word of TUT†, of first column (u, ω t).
pub fn conjugate_word(k: u32, u: Point, t: Point) -> Word
    requires { Equation k u t × (k ≤ top_scale) }
    ensures { Writes result (word k u (turn t)) }
{
    word(k, u, times_omega(t))
}
