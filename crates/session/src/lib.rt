// A session and its calls, by value: SPEC, "Walk" and "Calls". Each call's contract is one step of the model in `session_model`.
#![tactic(auto)]

ghost use Rattle.std.specs.Prelude.{[]};
ghost use Rattle.session_model.specs.Session.{rewind, plain, shortest};
ghost use Rattle.session_stages.specs.Meaning.{Fits};
ghost use Rattle.session_stages.specs.Session.{Steps, Hands};

mod hand;

use record::Refusal;
pub use session_images::has_image;
pub use session_stages::{Answer, Outcome, Parts, Session, Stage, clear, start};
pub use session_turns::read;

// A hand-out: as many of the next listed points as the slice has space for.
pub fn hand_out(s: Session, out: &mut [i32]) -> Outcome
    ensures hands { Hands s out.old out.new result.session result.answer }
    ensures fits { Fits result.session.stage }
{
    match s.stage {
        Stage::Early(_) => session_stages::no_job(s),
        Stage::Walking(c) => hand::from_course(c, out),
    }
}

// Back before the first point.
pub fn rewind(s: Session) -> Outcome
    ensures steps { Steps rewind [] s result.session result.answer }
    ensures fits { Fits result.session.stage }
{
    match s.stage {
        Stage::Early(_) => session_stages::no_job(s),
        Stage::Walking(c) => session_stages::place::rewound(c),
    }
}

// Whether the job lists a point.
pub fn has_solution(s: Session) -> Answer
    ensures { Steps plain [] s s result }
{
    match s.stage {
        Stage::Early(_) => Answer::Refused(Refusal::NoJob),
        Stage::Walking(c) => Answer::Says(question::has_solution(c.job, c.operator)),
    }
}

// The shortest pattern that the job allows: the least scale that has one, and there the first u and its first t.
pub fn shortest(s: Session) -> Answer
    ensures { Steps shortest [] s s result }
{
    match s.stage {
        Stage::Early(_) => Answer::Refused(Refusal::NoJob),
        Stage::Walking(c) => session_stages::tell_pattern(pattern_shortest::of_job(c.job)),
    }
}
