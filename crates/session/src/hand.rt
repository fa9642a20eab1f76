// A session's hand-outs.
ghost use Rattle.session_model.specs.Session.{step, handOut, given};
ghost use Rattle.ranks.specs.Rest.{left_at};
ghost use Rattle.ranks.specs.Rank.{top};
ghost use Rattle.cuts.specs.Digits.{span};
ghost use Rattle.walk_list.specs.Walk.{listed_at, spot_of};
ghost use Rattle.session_stages.specs.World.{world};
ghost use Rattle.session_stages.specs.Session.{course_of, EmptyIf, Gives};

use operator::Operator;
use session_stages::{Answer, Course, Outcome, Session, Stage, place};

// With a job: after the end was reported it is refused.
pub(crate) fn from_course(c: Course, out: &mut [i32]) -> Outcome
    ensures { Gives (step world (handOut out.old) (course_of c)) out.old out.new result.session result.answer }
{
    match c.spot {
        Some(_) => from_spot(c, out),
        None => place::after_end(c),
    }
}

// Whether nothing is left at the start of a walk: for a job that lists nothing the question, in coordinates of its own choice, is quicker than a walk.
fn is_empty(c: Course) -> bool
    ensures { EmptyIf c result }
{
    match c.spot {
        Some(v) => place::is_least(v) && !question::has_solution(c.job, Operator::IDENTITY),
        None => false,
    }
}

// What is left from the spot on.
fn from_spot(c: Course, out: &mut [i32]) -> Outcome
    ensures { Gives (given world c.job c.operator out.old (left_at (listed_at c.job) (top span) (spot_of c.spot))) out.old out.new result.session result.answer }
{
    if is_empty(c) {
        return place::at_end(c);
    }
    let h = walk::hand_out(c.job, c.spot, out);
    let spot = h.spot;
    Outcome {
        session: Session {
            stage: Stage::Walking(Course { spot, ..c }),
        },
        answer: Answer::Handed(h.count, place::is_ended(spot)),
    }
}
