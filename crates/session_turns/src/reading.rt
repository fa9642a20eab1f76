// A session's readings.
ghost use Rattle.std.specs.Prelude.{[]};
ghost use Rattle.session_model.specs.Session.{reading};
ghost use Rattle.session_stages.specs.Meaning.{Fits};
ghost use Rattle.session_stages.specs.Session.{Steps};

use crate::{accepted, turn};
use record::Reading;
use session_stages::{Outcome, Session};

// One reading: a record from the front of the bytes joins the session, or is refused.
pub fn read(s: Session, bytes: &[u8]) -> Outcome
    ensures steps { Steps (reading bytes.now) [] s result.session result.answer }
    ensures fits { Fits result.session.stage }
{
    match record::read(bytes, turn(s)) {
        Reading::Accepted(x, n) => accepted(s, x, n),
        Reading::Refused(f) => session_stages::refused(s, f),
    }
}
