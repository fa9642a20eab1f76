// The calls on the bench's session (`session_tallying`), by value: each is the one of `session`, and moves the counts on.
#![tactic(auto)]

ghost use Rattle.std.specs.Prelude.{[]};
ghost use Rattle.session_model.specs.Session.{reading, rewind as rewinding, plain, image_of, shortest as shortestOf};
ghost use Rattle.session_stages.specs.Session.{Steps};
ghost use Rattle.session_tallying.specs.Tallied.{Moves, Deals};

use ring::Point;
pub use session_stages::{Answer, Stage};
pub use session_tally::Tally;
pub use session_tallying::{Outcome, Tallied, clear, start, tally};

// One reading: a record from the front of the bytes joins the session, or is refused.
pub fn read(b: Tallied, bytes: &[u8]) -> Outcome
    ensures { Moves (reading bytes.now) [] b result.session result.answer }
{
    session_tallying::kept(session::read(b.session, bytes), b.tally)
}

// A hand-out: as many of the next listed points as the slice has space for.
pub fn hand_out(b: Tallied, out: &mut [i32]) -> Outcome
    ensures { Deals b out.old out.new result.session result.answer }
{
    let o = session::hand_out(b.session, out);
    let t = session_tallying::grown(b.tally, b.session, o.answer, out);
    session_tallying::kept(o, t)
}

// Back before the first point.
pub fn rewind(b: Tallied) -> Outcome
    ensures { Moves rewinding [] b result.session result.answer }
{
    let o = session::rewind(b.session);
    session_tallying::kept(o, session_tallying::restarted(b.tally, o.answer))
}

// Whether the job lists a point.
pub fn has_solution(b: Tallied) -> Answer
    ensures { Steps plain [] b.session b.session result }
{
    session::has_solution(b.session)
}

// Whether w is what the remembered operator makes of a listed point.
pub fn has_image(b: Tallied, w: Point) -> Answer
    ensures { Steps (image_of w) [] b.session b.session result }
{
    session::has_image(b.session, w)
}

// The shortest pattern that the job allows.
pub fn shortest(b: Tallied) -> Answer
    ensures { Steps shortestOf [] b.session b.session result }
{
    session::shortest(b.session)
}
