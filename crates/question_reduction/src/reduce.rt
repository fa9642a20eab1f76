// The reduction: the Note, Algorithm 3.13, as steps over its generators, each to the operator whose boxes are least, while they fall.
ghost use Rattle.std.specs.Prelude.{◌≡◌, true, ◌≤◌};
ghost use Rattle.region.specs.Region.{accepted_job};
ghost use Rattle.question_strips.specs.Strips.{Ends};
ghost use Rattle.question_reduction.specs.Undoing.{Undoing};

use crate::generators::{GENERATORS, composed, sending, turned};
use crate::parts::{imaginary_strips, real_strips};
use crate::{Invertible, propose, usable};
use operator::Operator;
use question_strips::{Strips, units};
use region::Job;

// At most so many steps.
const BUDGET: u64 = 32;

// The size of a line of two strips of width 1.
const ONE: u64 = 224;

// The size of the boxes of some 65,000 candidates: two lines, and 16 for each doubling.
const LARGE: u64 = 704;

// An operator, and about how large its boxes are.
#[derive(Clone, Copy)]
struct Reached {
    turn: Invertible,
    size: u64,
}

// About 16 times the logarithm.
fn log(w: u64) -> u64
    ensures { result ≤ 1024 }
{
    // How many binary digits come after the first five.
    let s = (64 - w.leading_zeros()).saturating_sub(5);
    16 * u64::from(s) + (w >> s) % 32
}

// About how many pairs a line has, by the logarithm: one at least, and one where a strip has no width.
fn size(s: Strips) -> u64
    requires { Ends s.first × Ends s.second }
    ensures { result ≤ 2048 }
{
    let a = log(units::width(s.first));
    let b = log(units::width(s.second));
    if a == 0 || b == 0 || a + b < ONE {
        ONE
    } else {
        a + b
    }
}

fn measured(job: Job, g: Invertible) -> Reached
    requires { (accepted_job job ≡ true) × Undoing g }
    ensures { Undoing result.turn }
{
    let x = size(real_strips(job, g));
    let y = size(imaginary_strips(job, g));
    Reached {
        turn: g,
        size: x + y,
    }
}

fn better(x: Reached, y: Reached) -> Reached
    requires { Undoing x.turn × Undoing y.turn }
    ensures { Undoing result.turn }
{
    if x.size < y.size { x } else { y }
}

// The best of what one step reaches.
fn step(job: Job, from: Reached) -> Reached
    requires { (accepted_job job ≡ true) × Undoing from.turn }
    ensures { Undoing result.turn }
{
    let mut best = from;
    for i in 0..GENERATORS {
        let r = measured(job, usable(composed(turned(i), from.turn.there)));
        best = better(r, best);
    }
    best
}

pub(crate) fn reduced(job: Job) -> Invertible
    requires { accepted_job job ≡ true }
    ensures { Undoing result }
{
    let mut best = measured(job, usable(Operator::IDENTITY));
    for _ in 0..BUDGET {
        let r = step(job, best);
        if best.size <= r.size {
            break;
        }
        best = r;
    }
    best.turn
}

// The operator, or the reduction's where the operator's boxes are large and the reduction's smaller.
pub fn chosen(job: Job, g: Invertible) -> Invertible
    requires { (accepted_job job ≡ true) × Undoing g }
    ensures { Undoing result }
{
    let m = measured(job, g);
    if m.size < LARGE {
        return g;
    }
    better(measured(job, usable(propose(job))), m).turn
}

// Whether an operator's boxes are large: nothing rests on it.
pub fn is_large(job: Job, g: Invertible) -> bool
    requires { (accepted_job job ≡ true) × Undoing g }
{
    LARGE <= measured(job, g).size
}

// The operator, or the operator with its two parts exchanged, so that the imaginary part has the fewer pairs: the search goes over them first.
pub fn oriented(job: Job, g: Invertible) -> Invertible
    requires { (accepted_job job ≡ true) × Undoing g }
    ensures { Undoing result }
{
    if size(real_strips(job, g)) < size(imaginary_strips(job, g)) {
        usable(composed(sending(0, 1, 0, 0, 0, 0, 0, 1), g.there))
    } else {
        g
    }
}
