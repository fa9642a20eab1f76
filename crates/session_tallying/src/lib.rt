// The bench's session: a session, and the counts of the points that it handed out since the last rewind or clearing (SPEC, "Tally"); and what each call does to the counts. The calls
// that search are those of `session_tallied`.
#![tactic(auto)]

ghost use Rattle.std.specs.Prelude.{◌≡◌, [], cond, ◌*◌, take};
ghost use Rattle.ring_points.specs.Slices.{points_of};
ghost use Rattle.session_tally.specs.Spread.{spread, nothing};
ghost use Rattle.session_model.specs.Session.{clear as clearing, is_refused};
ghost use Rattle.session_stages.specs.World.{world};
ghost use Rattle.session_stages.specs.Session.{meaning, answer_of, scale_of};
ghost use Rattle.session_tallying.specs.Tallied.{fresh, grown, raised, Moves, Handing, Dealt, DealtBy};

use region::Job;
use session_stages::{Answer, Session, Stage};
use session_tally::Tally;

#[derive(Clone, Copy)]
pub struct Tallied {
    pub session: Session,
    pub tally: Tally,
}

// The bench's session that a call leaves, and its answer.
#[derive(Clone, Copy)]
pub struct Outcome {
    pub session: Tallied,
    pub answer: Answer,
}

// A session that has read nothing, and counts of 0.
pub fn start() -> Tallied
    ensures { result ≡ fresh }
{
    Tallied {
        session: session_stages::start(),
        tally: Tally::zero(),
    }
}

// A fresh session again.
pub fn clear(b: Tallied) -> Outcome
    ensures { Moves clearing [] b result.session result.answer }
{
    kept(session_stages::clear(b.session), Tally::zero())
}

// The counts: how many of the points handed out since the last rewind or clearing have each exponent.
pub fn tally(b: Tallied) -> Tally
    ensures { result ≡ b.tally }
{
    b.tally
}

// What a call of the session leaves, with these counts.
pub fn kept(o: session_stages::Outcome, t: Tally) -> Outcome
    ensures { (result.session.session ≡ o.session) × (result.session.tally ≡ t) × (result.answer ≡ o.answer) }
{
    Outcome {
        session: Tallied {
            session: o.session,
            tally: t,
        },
        answer: o.answer,
    }
}

// The counts after a hand-out: the points written are counted, and none where it is refused.
pub fn grown(t: Tally, s: Session, a: Answer, points: &[i32]) -> Tally
    requires { Handing (meaning s) points.now a }
    ensures { result ≡ grown (answer_of points.now a) (scale_of (meaning s)) t }
{
    match a {
        Answer::Handed(n, _) => counted(t, s, points, n),
        _ => t,
    }
}

// With the first n points of a slice. A session without a job hands out nothing, so its arm is never met.
fn counted(t: Tally, s: Session, points: &[i32], n: usize) -> Tally
    requires { Dealt (meaning s) points.now n }
    ensures { result ≡ raised (scale_of (meaning s)) (take (4 * n) points.now) t }
{
    match s.stage {
        Stage::Early(_) => t,
        Stage::Walking(c) => t.plus(spread(c.job, points, n)),
    }
}

// Where the job lists the new points alone, all have the exponent k.
fn spread(job: Job, points: &[i32], n: usize) -> [u64; 21]
    requires { DealtBy job points.now n }
    ensures { result ≡ spread job.k (points_of (take (4 * n) points.now)) }
{
    if job.all {
        session_tally::spread_of(points, n, job.k)
    } else {
        session_tally::all_new(n, job.k)
    }
}

// The counts after a rewind: 0, and as before where it is refused.
pub fn restarted(t: Tally, a: Answer) -> Tally
    ensures { result ≡ cond (is_refused world (answer_of [] a)) t nothing }
{
    match a {
        Answer::Refused(_) => t,
        _ => Tally::zero(),
    }
}
