// A bench's session of one's own, lent to the calls of `session_lent`: each takes the session, lends it for the call, and has it back with the answer.
#![tactic(auto)]

ghost use Rattle.std.specs.Prelude.{[], ◌≡◌};
ghost use Rattle.std.specs.Fn.{FnOnceReturnsAtMut};
ghost use Rattle.session_model.specs.Session.{reading, rewind as rewinding, clear as clearing, plain, image_of, shortest as shortestOf};
ghost use Rattle.session_stages.specs.Session.{Steps};
ghost use Rattle.session_tallying.specs.Tallied.{Moves, Deals};

use ring::Point;
use session::Answer;
use session_tallied::{Outcome, Tallied};
use session_tally::Tally;

// A call on the session, which is lent for it.
fn lending<F: FnOnce(&mut Tallied) -> Answer>(mut s: Tallied, call: F) -> Outcome
    requires { F.IsAlwaysCallable call }
    ensures { FnOnceReturnsAtMut F.FnOnce call s result.answer result.session }
{
    let answer = call(&mut s);
    Outcome { session: s, answer }
}

// One reading: a record from the front of the bytes joins the session, or is refused.
pub fn read(s: Tallied, bytes: &[u8]) -> Outcome
    ensures { Moves (reading bytes.now) [] s result.session result.answer }
{
    lending(s, |t| session_lent::read(t, bytes))
}

// A hand-out: as many of the next listed points as the slice has space for.
pub fn hand_out(s: Tallied, out: &mut [i32]) -> Outcome
    ensures { Deals s out.old out.new result.session result.answer }
{
    // Not by `lending`: its promise leaves open what a call writes to a slice that it holds.
    let mut left = s;
    let answer = session_lent::hand_out(&mut left, out);
    Outcome {
        session: left,
        answer,
    }
}

// Back before the first point.
pub fn rewind(s: Tallied) -> Outcome
    ensures { Moves rewinding [] s result.session result.answer }
{
    lending(s, session_lent::rewind)
}

// A fresh session again.
pub fn clear(s: Tallied) -> Outcome
    ensures { Moves clearing [] s result.session result.answer }
{
    lending(s, session_lent::clear)
}

// Whether the job lists a point.
pub fn has_solution(s: Tallied) -> Answer
    ensures { Steps plain [] s.session s.session result }
{
    session_lent::has_solution(&s)
}

// Whether w is what the remembered operator makes of a listed point.
pub fn has_image(s: Tallied, w: Point) -> Answer
    ensures { Steps (image_of w) [] s.session s.session result }
{
    session_lent::has_image(&s, w)
}

// The shortest pattern that the job allows.
pub fn shortest(s: Tallied) -> Answer
    ensures { Steps shortestOf [] s.session s.session result }
{
    session_lent::shortest(&s)
}

// The counts: how many of the points handed out since the last rewind or clearing have each exponent.
pub fn tally(s: Tallied) -> Tally
    ensures { result ≡ s.tally }
{
    session_lent::tally(&s)
}
