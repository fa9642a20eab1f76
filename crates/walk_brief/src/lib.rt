// Brief: a brief look for a listed point, any one, which stops at one, at the end, or when its fuel is spent.
#![tactic(auto)]

ghost use Rattle.std.specs.Prelude.{◌≡◌, []};
ghost use Rattle.walk_list.specs.Walk.{full};
ghost use Rattle.walk_brief.specs.Brief.{Looks};

mod steps;

use region::Job;

// What a brief look for a point of the list comes to: the number is the fuel that is left.
#[derive(Clone, Copy)]
pub enum Look {
    Found,
    Nothing(u64),
    Tired,
}

// Whether there is a listed point, if a look with so much fuel tells.
pub fn glance(job: Job, fuel: u64) -> Look
    ensures { Looks job (full job ≡ []) result }
{
    if !job.is_accepted() {
        return Look::Nothing(fuel);
    }
    steps::in_all(cuts_bounds::of_job(job), fuel)
}
