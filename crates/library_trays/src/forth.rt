// The numbers of a session of trays and of its answers.
ghost use Rattle.std.specs.Prelude.{◌≡◌, []};
ghost use Rattle.tray_model.specs.Session.{early, walking};
ghost use Rattle.walk_list.specs.Walk.{spot_of};
ghost use Rattle.tray.specs.Session.{meaning, answer_of};
ghost use Rattle.library_trays.specs.Numbers.{targets_of, meant, reply_of};

use crate::TrayState;
use library_numbers::{Four, Reply, Shape};
use ring::Point;
use tray::{Answer, Session, Stage};
use tray_list::{Target, Tray};

const ORIGIN: Four = Four {
    a: 0,
    b: 0,
    c: 0,
    d: 0,
};

const NO_SHAPE: Shape = Shape {
    kind: 0,
    n: 0,
    xl: 0,
    xh: 0,
    yl: 0,
    yh: 0,
    cx: 0,
    cy: 0,
    p: 0,
    q: 0,
    r: 0,
    s: 0,
    zx: 0,
    zy: 0,
    w: 0,
};

// The numbers of eight targets.
fn shapes_of(from: [Target; 8]) -> [Shape; 8]
    ensures { targets_of result ≡ from }
{
    let mut shapes = [NO_SHAPE; 8];
    let mut j = 0;
    while j < 8 {
        let t = from[j];
        let region = t.region;
        shapes[j] = library_numbers::shape_of(region);
        j += 1;
    }
    shapes
}

// Without a tray: zeros alone.
fn without() -> TrayState
    ensures { meant result ≡ early }
{
    TrayState {
        taken: 0,
        k: 0,
        all: 0,
        ended: 0,
        count: 0,
        spot: ORIGIN,
        b: NO_SHAPE,
        a: [NO_SHAPE; 8],
    }
}

// A tray, and where its walk stands.
fn holding(t: Tray, p: Option<Point>) -> TrayState
    ensures { meant result ≡ walking t (spot_of p) }
{
    let targets = t.targets;
    let a = shapes_of(targets);
    let second = t.b;
    let b = library_numbers::shape_of(second);
    let at = library_numbers::spotted(p);
    let v = at.v;
    TrayState {
        taken: 1,
        k: t.k,
        all: library_numbers::flag(t.all),
        ended: at.ended,
        count: t.count,
        spot: v,
        b: b,
        a: a,
    }
}

// The numbers of a session.
pub(crate) fn state_of(s: Session) -> TrayState
    ensures { meant result ≡ meaning s }
{
    let g = s.stage;
    let t = s.tray;
    match g {
        Stage::Early => without(),
        Stage::Walking(p) => holding(t, p),
    }
}

// The numbers of an answer.
pub(crate) fn reply_of(a: Answer) -> Reply
    ensures { result ≡ reply_of (answer_of [] a) }
{
    match a {
        Answer::Taken(n) => library_numbers::told(1, 0, false, n),
        Answer::Handed(n, end) => library_numbers::told(2, 0, end, n),
        Answer::Done => library_numbers::told(3, 0, false, 0),
        Answer::Refused(f) => library_numbers::told(0, f.number(), false, 0),
    }
}
