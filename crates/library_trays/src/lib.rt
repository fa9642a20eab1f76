// A session of trays as plain numbers, for callers that are not Rattle: every value of `TrayState` is some session of trays (specs/Numbers), and all zeros are the one without a
// tray. Each call is that of `tray` on the session that the numbers are, and leaves numbers.
#![tactic(auto)]

ghost use Rattle.tray_model.specs.Session.{taking, rewind as rewinding, clear as clearing};
ghost use Rattle.library_trays.specs.Calls.{LeftOf, Leaves, Fills};

mod back;
mod forth;

use library_numbers::{Four, Reply, Shape};
use tray::Outcome;

// A session of trays. Where `taken` is 0 there is no tray, and nothing else counts. The tray has the first `count` regions of `a`, eight at most.
#[repr(C)]
#[derive(Clone, Copy)]
pub struct TrayState {
    pub taken: u8,
    pub k: u8,
    pub all: u8,
    pub ended: u8,
    pub count: usize,
    pub spot: Four,
    pub b: Shape,
    pub a: [Shape; 8],
}

// The session that a call leaves, and its answer.
#[repr(C)]
#[derive(Clone, Copy)]
pub struct TrayLeft {
    pub session: TrayState,
    pub reply: Reply,
}

fn leaving(o: Outcome) -> TrayLeft
    ensures { LeftOf o result }
{
    let s = o.session;
    let a = o.answer;
    let session = forth::state_of(s);
    let reply = forth::reply_of(a);
    TrayLeft {
        session: session,
        reply: reply,
    }
}

// A tray taken replaces the one there and starts anew.
pub fn take(s: TrayState, k: u64, byte: u64, a: &[u8], b: &[u8]) -> TrayLeft
    ensures { Leaves (taking (record { scale = k; byte = byte; a = a.now; b = b.now })) s result }
{
    leaving(tray::take(back::session_of(s), k, byte, a, b))
}

// A hand-out: as many of the next listed points as the slice has space for.
pub fn hand_out(s: TrayState, out: &mut [i32]) -> TrayLeft
    ensures { Fills s out.old out.new result }
{
    leaving(tray::hand_out(back::session_of(s), out))
}

// Back before the first point.
pub fn rewind(s: TrayState) -> TrayLeft
    ensures { Leaves rewinding s result }
{
    leaving(tray::rewind(back::session_of(s)))
}

// Without a tray again.
pub fn clear(s: TrayState) -> TrayLeft
    ensures { Leaves clearing s result }
{
    leaving(tray::clear(back::session_of(s)))
}
