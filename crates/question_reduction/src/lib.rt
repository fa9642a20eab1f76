// The reduction, which proposes an operator for a job; operators with their inverses, and the strips that a job has in the coordinates of one.
#![tactic(auto)]

ghost use Rattle.std.specs.Prelude.{◌≡◌};
ghost use Rattle.operator.specs.Operator.{check_of};
ghost use Rattle.question_reduction.specs.Undoing.{Undoing};

mod generators;
mod parts;
mod reduce;

use operator::Operator;
pub use parts::{imaginary_strips, real_strips};
pub use reduce::{chosen, is_large, oriented};
use region::Job;

// An operator and its inverse.
#[derive(Clone, Copy)]
pub struct Invertible {
    pub there: Operator,
    pub back: Operator,
}

// The reduction's proposal for a job. Its choice is free: it passes the operators' test, and every answer is the same whatever it is.
pub fn propose(job: Job) -> Operator
    ensures { check_of result ≡ Ok tt }
{
    if job.is_accepted() {
        let t = reduce::reduced(job);
        t.there
    } else {
        Operator::IDENTITY
    }
}

// The operator with its inverse, or the identity for one that the test refuses.
pub fn usable(g: Operator) -> Invertible
    ensures { Undoing result }
{
    let i = g.inverse();
    match i {
        Ok(h) => Invertible { there: g, back: h },
        Err(_) => Invertible {
            there: Operator::IDENTITY,
            back: Operator::IDENTITY,
        },
    }
}
