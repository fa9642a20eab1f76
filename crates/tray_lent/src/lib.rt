// The calls on a session of trays that is lent, and which each call moves on: SPEC, "Trays". Each calls the one of `tray` that takes it by value, and has the
// same contract.
#![tactic(auto)]

ghost use Rattle.std.specs.Prelude.{[]};
ghost use Rattle.tray_model.specs.Session.{rewind as rewinding, clear as clearing};
ghost use Rattle.tray.specs.Session.{Steps, Takes, Hands};

use tray::{Answer, Session};

// A take of what `tray_taking::take` read.
pub fn take(s: &mut Session, read: tray_taking::Answer) -> Answer
    ensures { Takes s.old read s.new result }
{
    let r = tray::taken(*s, read);
    *s = r.session;
    r.answer
}

// A hand-out: as many of the next listed points as the slice has space for.
pub fn hand_out(s: &mut Session, out: &mut [i32]) -> Answer
    ensures { Hands s.old out.old out.new s.new result }
{
    let r = tray::hand_out(*s, out);
    *s = r.session;
    r.answer
}

// Back before the first point.
pub fn rewind(s: &mut Session) -> Answer
    ensures { Steps rewinding [] s.old s.new result }
{
    let r = tray::rewind(*s);
    *s = r.session;
    r.answer
}

// Without a tray again.
pub fn clear(s: &mut Session) -> Answer
    ensures { Steps clearing [] s.old s.new result }
{
    let r = tray::clear(*s);
    *s = r.session;
    r.answer
}
