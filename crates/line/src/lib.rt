// The line problem: SPEC, "Line problem".
#![tactic(auto)]

ghost use Rattle.std.specs.Prelude.{◌≡◌, true, ◌+◌, ◌<◌, ◌≤◌, length};
ghost use Rattle.std.proofs.lemmas.List.Edits.{sets};
ghost use Rattle.line.specs.Line.{accepted, within, in_range, span, coordinate, pair_of, Answers};
ghost use Rattle.line.specs.Start.{rank_of};
ghost use Rattle.line.specs.Next.{Near, Inside};
ghost use Rattle.line.specs.Given.{Given};

mod search;

use line_steps::Digits;
pub use line_steps::Interval;

// Coordinates of a pair, and ends of an interval, lie within ±10,000.
const HIGHEST: i32 = line_steps::BOUND as i32;

pub(crate) const LOWEST: i32 = -HIGHEST;

// Where the pairs begin.
#[derive(Clone, Copy)]
pub enum Place {
    Beginning,
    After(i32, i32),
}

// The count and whether the end is reached, or the refusal 4.
#[derive(Clone, Copy)]
pub enum Answer {
    Handed(usize, bool),
    Refused,
}

// The pairs (a, b) with a + b√2 in the first interval and a − b√2 in the second, strictly after a place, as many as there is space for.
pub fn pairs(first: Interval, second: Interval, place: Place, out: &mut [i32]) -> Answer
    ensures { Answers first second place out.old result out.new }
{
    if in_range(first) {
        if in_range(second) {
            return hand_out(first, second, search::start(first, second, place), out);
        }
    }
    Answer::Refused
}

fn in_range(i: Interval) -> bool
    ensures { result ≡ in_range i }
{
    within(1, 100, i.n) && (within(LOWEST, HIGHEST, i.lo) && within(LOWEST, HIGHEST, i.hi))
}

fn within(lo: i32, hi: i32, z: i32) -> bool
    ensures { result ≡ within lo hi z }
{
    lo <= z && z <= hi
}

// As many of the pairs from p on as there is space for.
fn hand_out(first: Interval, second: Interval, p: Digits, out: &mut [i32]) -> Answer
    requires { (accepted first second ≡ true) × Near p }
    ensures { Given first second (rank_of p) out.old out.new result }
{
    let n = out.len() / 2;
    let mut k = 0;
    let c = line_steps::reduced(first, second);
    let mut f = line_steps::onward(c, p);
    // A while: where the pairs end before the space, k is how many there are.
    while k < n {
        match f {
            Some(q) => {
                put(out, 2 * k, q);
                k += 1;
                f = line_steps::next(c, Digits { a: q.a, b: q.b + 1 });
            }
            None => {
                break;
            }
        }
    }
    match f {
        Some(_) => Answer::Handed(k, false),
        None => Answer::Handed(k, true),
    }
}

// The pair written to two numbers of the slice, from k on.
fn put(out: &mut [i32], k: usize, p: Digits)
    requires { (k + 2 ≤ length out.old) × Inside p }
    ensures { out.new ≡ sets out.old k (pair_of (rank_of p)) }
{
    let a = coordinate(p.a);
    let b = coordinate(p.b);
    out[k] = a;
    out[k + 1] = b;
}

fn coordinate(t: u64) -> i32
    requires { t < span }
    ensures { result ≡ coordinate t }
{
    t as i32 - HIGHEST
}
