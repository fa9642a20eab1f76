// The plain question: SPEC, "Questions", searched in the coordinates of an operator.
#![tactic(auto)]

ghost use Rattle.std.specs.Prelude.{◌≡◌, true, not};
ghost use Rattle.ranks.specs.Rest.{is_nil};
ghost use Rattle.region.specs.Region.{accepted_job};
ghost use Rattle.question_reduction.specs.Undoing.{Undoing};
ghost use Rattle.walk_list.specs.Walk.{full};

mod search;

use operator::Operator;
pub use question_reduction::propose;
use question_reduction::{Invertible, usable};
use region::Job;
use walk_brief::Look;

// The fuel of a brief look, and of a longer one.
const BRIEF: u64 = 32768;

const LONGER: u64 = 524288;

// Whether a job's list has a point: by a brief look in its own coordinates, or else searched in the coordinates of an operator.
pub fn has_solution(job: Job, caller: Operator) -> bool
    ensures { result ≡ not (is_nil (full job)) }
{
    let k = walk_brief::glance(job, BRIEF);
    match k {
        Look::Found => true,
        Look::Nothing(_) => false,
        Look::Tired => searched(job, caller),
    }
}

// The same searched in the coordinates of an operator: the caller's where it is not the identity and its boxes are not large, else the reduction's
// proposal.
fn searched(job: Job, caller: Operator) -> bool
    ensures { result ≡ not (is_nil (full job)) }
{
    if !job.is_accepted() {
        return false;
    }
    let a = job.a;
    let b = job.b;
    if a.is_void() {
        return false;
    }
    if b.is_void() {
        return false;
    }
    settled(
        job,
        question_reduction::oriented(job, in_force(job, caller)),
    )
}

// Whether the boxes are large and a region is a slice, which can be much thinner than they are.
fn is_loose(job: Job, g: Invertible) -> bool
    requires { (accepted_job job ≡ true) × Undoing g }
{
    let has_slice = region_extent::radius(job.a) != 0 || region_extent::radius(job.b) != 0;
    has_slice && question_reduction::is_large(job, g)
}

// By the operator's boxes, or by a longer look first.
fn settled(job: Job, g: Invertible) -> bool
    requires { (accepted_job job ≡ true) × Undoing g }
    ensures { result ≡ not (is_nil (full job)) }
{
    if is_loose(job, g) {
        return looked(job, g);
    }
    search::search(job, g)
}

fn looked(job: Job, g: Invertible) -> bool
    requires { (accepted_job job ≡ true) × Undoing g }
    ensures { result ≡ not (is_nil (full job)) }
{
    let k = walk_brief::glance(job, LONGER);
    match k {
        Look::Found => true,
        Look::Nothing(_) => false,
        Look::Tired => search::search(job, g),
    }
}

fn in_force(job: Job, caller: Operator) -> Invertible
    requires { accepted_job job ≡ true }
    ensures { Undoing result }
{
    if is_identity(caller) {
        return usable(propose(job));
    }
    question_reduction::chosen(job, usable(caller))
}

fn is_identity(g: Operator) -> bool {
    (g.a == 0)
        & (g.b == 0)
        & (g.c == 0)
        & (g.d == 1)
        & (g.ai == 0)
        & (g.bi == 1)
        & (g.ci == 0)
        & (g.di == 0)
}
