// A session of trays and its calls, by value: SPEC, "Trays". Each call's contract is one step of the model in `tray_model`.
#![tactic(auto)]

ghost use Rattle.std.specs.Prelude.{◌≡◌, []};
ghost use Rattle.tray_model.specs.Session.{taking as takingOf, handOut, rewind as rewinding, clear as clearing, given, done, walking};
ghost use Rattle.ranks.specs.Rest.{at, left_at};
ghost use Rattle.ranks.specs.Rank.{top};
ghost use Rattle.cuts.specs.Digits.{span};
ghost use Rattle.walk_list.specs.Walk.{spot_of};
ghost use Rattle.tray_list.specs.Tray.{any_at};
ghost use Rattle.tray.specs.Session.{world, meaning, outcome, fresh, Steps, Takes, Gives, Hands};

use ring::Point;
use session_stages::place;
use tray_list::Tray;
pub use tray_taking::Refusal;

// Whether a tray was taken, and where its walk stands.
#[derive(Clone, Copy)]
pub enum Stage {
    Early,
    Walking(Option<Point>),
}

#[derive(Clone, Copy)]
pub struct Session {
    pub stage: Stage,
    pub tray: Tray,
}

// What a call answers: a take the number of regions, a hand-out its count and whether the end is reached.
#[derive(Clone, Copy)]
pub enum Answer {
    Taken(usize),
    Handed(usize, bool),
    Done,
    Refused(Refusal),
}

// The session that a call leaves, and its answer.
#[derive(Clone, Copy)]
pub struct Outcome {
    pub session: Session,
    pub answer: Answer,
}

// A session without a tray.
pub fn start() -> Session
    ensures { result ≡ fresh }
{
    Session {
        stage: Stage::Early,
        tray: tray_taking::no_tray(),
    }
}

// Without a tray again.
pub fn clear(s: Session) -> Outcome
    ensures { Steps clearing [] s result.session result.answer }
{
    Outcome {
        session: start(),
        answer: Answer::Done,
    }
}

// A tray taken replaces the one there and starts anew.
pub fn take(s: Session, k: u64, byte: u64, a: &[u8], b: &[u8]) -> Outcome
    ensures { Steps (takingOf (record { scale = k; byte = byte; a = a.now; b = b.now })) [] s result.session result.answer }
{
    taken(s, tray_taking::take(k, byte, a, b))
}

// The same with what `tray_taking::take` read.
pub fn taken(s: Session, g: tray_taking::Answer) -> Outcome
    ensures { Takes s g result.session result.answer }
{
    let v = g.verdict;
    let t = g.tray;
    match v {
        Ok(()) => begun(t, Answer::Taken(t.count)),
        Err(f) => refused(s, f),
    }
}

// A hand-out: as many of the next listed points as the slice has space for.
pub fn hand_out(s: Session, out: &mut [i32]) -> Outcome
    ensures { Hands s out.old out.new result.session result.answer }
{
    let g = s.stage;
    match g {
        Stage::Early => refused(s, Refusal::Record(record::Refusal::NoJob)),
        Stage::Walking(p) => from_spot(s, p, out),
    }
}

// With a tray: after the end was reported it is refused.
fn from_spot(s: Session, p: Option<Point>, out: &mut [i32]) -> Outcome
    requires { s.stage ≡ Stage.Walking p }
    ensures { Hands s out.old out.new result.session result.answer }
{
    let t = s.tray;
    match p {
        Some(_) => handed(t, p, out),
        None => refused(s, Refusal::Record(record::Refusal::Ended)),
    }
}

// Back before the first point.
pub fn rewind(s: Session) -> Outcome
    ensures { Steps rewinding [] s result.session result.answer }
{
    let g = s.stage;
    match g {
        Stage::Early => refused(s, Refusal::Record(record::Refusal::NoJob)),
        Stage::Walking(_) => rewound(s),
    }
}

// A refused call changes nothing.
fn refused(s: Session, f: Refusal) -> Outcome
    ensures { (result.session ≡ s) × (result.answer ≡ Answer.Refused f) }
{
    Outcome {
        session: s,
        answer: Answer::Refused(f),
    }
}

fn rewound(s: Session) -> Outcome
    ensures { outcome [] result.session result.answer ≡ (done, walking s.tray (at 0)) }
{
    let t = s.tray;
    begun(t, Answer::Done)
}

// A tray before its first point.
fn begun(t: Tray, a: Answer) -> Outcome
    ensures { (meaning result.session ≡ walking t (at 0)) × (result.answer ≡ a) }
{
    Outcome {
        session: Session {
            stage: Stage::Walking(place::before_all()),
            tray: t,
        },
        answer: a,
    }
}

// What is left from the spot on.
fn handed(t: Tray, p: Option<Point>, out: &mut [i32]) -> Outcome
    ensures { Gives (given world t out.old (left_at (any_at t) (top span) (spot_of p))) out.old out.new result.session result.answer }
{
    let h = tray_merge::hand_out(t, p, out);
    let spot = h.spot;
    Outcome {
        session: Session {
            stage: Stage::Walking(spot),
            tray: t,
        },
        answer: Answer::Handed(h.count, place::is_ended(spot)),
    }
}
