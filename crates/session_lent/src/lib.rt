// The calls on the bench's session, which is lent, and which each call moves on: SPEC, "Calls". Each calls the one of `session_tallied` or `session_tallying` that takes it by value,
// and has the same contract.
#![tactic(auto)]

ghost use Rattle.std.specs.Prelude.{[], ◌≡◌};
ghost use Rattle.session_model.specs.Session.{reading, rewind as rewinding, clear as clearing, plain, image_of, shortest as shortestOf};
ghost use Rattle.session_stages.specs.Session.{Steps};
ghost use Rattle.session_tallying.specs.Tallied.{Moves, Deals};

use ring::Point;
use session::Answer;
use session_tally::Tally;
use session_tallying::{Outcome, Tallied};

// What a call leaves takes the session's place, and its answer is the call's.
fn leave(o: Outcome, s: &mut Tallied) -> Answer
    ensures { (s.new ≡ o.session) × (result ≡ o.answer) }
{
    *s = o.session;
    o.answer
}

// One reading: a record from the front of the bytes joins the session, or is refused.
pub fn read(s: &mut Tallied, bytes: &[u8]) -> Answer
    ensures { Moves (reading bytes.now) [] s.old s.new result }
{
    leave(session_tallied::read(*s, bytes), s)
}

// A hand-out: as many of the next listed points as the slice has space for.
pub fn hand_out(s: &mut Tallied, out: &mut [i32]) -> Answer
    ensures { Deals s.old out.old out.new s.new result }
{
    leave(session_tallied::hand_out(*s, out), s)
}

// Back before the first point.
pub fn rewind(s: &mut Tallied) -> Answer
    ensures { Moves rewinding [] s.old s.new result }
{
    leave(session_tallied::rewind(*s), s)
}

// A fresh session again.
pub fn clear(s: &mut Tallied) -> Answer
    ensures { Moves clearing [] s.old s.new result }
{
    leave(session_tallying::clear(*s), s)
}

// Whether the job lists a point.
pub fn has_solution(s: &Tallied) -> Answer
    ensures { Steps plain [] s.now.session s.now.session result }
{
    session_tallied::has_solution(*s)
}

// Whether w is what the remembered operator makes of a listed point.
pub fn has_image(s: &Tallied, w: Point) -> Answer
    ensures { Steps (image_of w) [] s.now.session s.now.session result }
{
    session_tallied::has_image(*s, w)
}

// The shortest pattern that the job allows.
pub fn shortest(s: &Tallied) -> Answer
    ensures { Steps shortestOf [] s.now.session s.now.session result }
{
    session_tallied::shortest(*s)
}

// The counts: how many of the points handed out since the last rewind or clearing have each exponent.
pub fn tally(s: &Tallied) -> Tally
    ensures { result ≡ s.now.tally }
{
    session_tallying::tally(*s)
}
