// What a session has read, what a call answers, and what both mean in the model of `session_model`: SPEC, "Calls". The fresh session, and the call that makes a session fresh.
#![tactic(auto)]

ghost use Rattle.std.specs.Prelude.{◌≡◌, []};
ghost use Rattle.session_model.specs.Session.{found, clear};
ghost use Rattle.session_stages.specs.World.{world, best_of};
ghost use Rattle.session_stages.specs.Session.{answer_of, fresh, Steps};

pub mod place;

use operator::Operator;
use pattern_shortest::Pattern;
use record::Refusal;
use region::{Job, Region};
use ring::Point;

// A job with the place of its walk and the operator that is remembered.
#[derive(Clone, Copy)]
pub struct Course {
    pub job: Job,
    pub spot: Option<Point>,
    pub operator: Operator,
}

// What a job has before it is whole: nothing, the scale, the scale and which solutions are listed (all, or only the new ones), and these with region A.
#[derive(Clone, Copy)]
pub enum Parts {
    Nothing,
    Scaled(u8),
    Selected(u8, bool),
    First(u8, bool, Region),
}

// What a session has read: parts of a job, or a whole one.
#[derive(Clone, Copy)]
pub enum Stage {
    Early(Parts),
    Walking(Course),
}

#[derive(Clone, Copy)]
pub struct Session {
    pub stage: Stage,
}

// What a call answers: a reading the bytes taken, a hand-out its count and whether the end is reached, a question yes or no, the shortest pattern its scale, u and t.
#[derive(Clone, Copy)]
pub enum Answer {
    Taken(usize),
    Handed(usize, bool),
    Done,
    Says(bool),
    Least(u8, Point, Point),
    Refused(Refusal),
}

// The session that a call leaves, and its answer.
#[derive(Clone, Copy)]
pub struct Outcome {
    pub session: Session,
    pub answer: Answer,
}

// A session that has read nothing.
pub fn start() -> Session
    ensures { result ≡ fresh }
{
    Session {
        stage: Stage::Early(Parts::Nothing),
    }
}

// A fresh session again.
pub fn clear(s: Session) -> Outcome
    ensures { Steps clear [] s result.session result.answer }
{
    Outcome {
        session: start(),
        answer: Answer::Done,
    }
}

// A refused call changes nothing.
pub fn refused(s: Session, f: Refusal) -> Outcome
    ensures { (result.session ≡ s) × (result.answer ≡ Answer.Refused f) }
{
    Outcome {
        session: s,
        answer: Answer::Refused(f),
    }
}

// Refused 9: the job is not whole.
pub fn no_job(s: Session) -> Outcome
    ensures { (result.session ≡ s) × (result.answer ≡ Answer.Refused Refusal.NoJob) }
{
    refused(s, Refusal::NoJob)
}

// The answer that tells a shortest pattern.
pub fn tell_pattern(p: Pattern) -> Answer
    ensures { answer_of [] result ≡ found world (best_of p) }
{
    match p {
        Pattern::Found(k, u, t) => Answer::Least(k, u, t),
        Pattern::Missing => Answer::Refused(Refusal::NoPattern),
    }
}
