// States: what is left to spell, its reduction to the least exponent, and the step that takes a syllable off the front.
ghost use Rattle.std.specs.Prelude.{◌≡◌, cond, ◌^◌, ◌<◌, ◌≤◌};
ghost use Rattle.gate_theory.specs.State.{Narrow, next};
ghost use Rattle.gate_theory.specs.Word.{reduced};

use crate::elements::{half, less, over_omega, over_root2, plus, unturn};
use crate::parity::{bare, none, parities};
use gate_theory::State;
use ring::Point;

// How far the phase moves with a syllable.
fn shift(b: bool) -> u32
    ensures { result ≡ cond b 3 1 }
{
    if b { 3 } else { 1 }
}

// H and T, or S, H and T, taken off the front.
pub(crate) fn next(s: State) -> State
    requires { Narrow s.u × Narrow s.t × (1 ≤ s.k) × (s.l < 2 ^ 31) }
    ensures { result ≡ next s }
{
    let u = s.u;
    let t = s.t;
    let pu = parities(u);
    let pt = parities(t);
    let b = bare(pu, pt);
    let z = unturn(b, t);
    let p = plus(u, z);
    let q = less(u, z);
    let l = s.l + shift(b);
    let pp = parities(p);
    if none(pp) {
        let x = half(p);
        let y = over_omega(half(q));
        State {
            k: s.k - 1,
            u: x,
            t: y,
            l,
        }
    } else {
        let x = over_root2(p);
        let y = over_omega(over_root2(q));
        State {
            k: s.k,
            u: x,
            t: y,
            l,
        }
    }
}

// u and t over √2 as often as u can be divided, k times at most.
pub(crate) fn reduce(k: u32, u: Point, t: Point) -> State
    ensures { result ≡ reduced k u t }
{
    let mut x = u;
    let mut y = t;
    for e in (1..=k).rev() {
        let Some(z) = x.divide_root2() else {
            return State {
                k: e,
                u: x,
                t: y,
                l: 0,
            };
        };
        x = z;
        y = over_root2(y);
    }
    State {
        k: 0,
        u: x,
        t: y,
        l: 0,
    }
}
