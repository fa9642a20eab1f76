// The place of a session's walk.
ghost use Rattle.std.specs.Prelude.{◌≡◌, true, []};
ghost use Rattle.session_model.specs.Session.{step, rewind};
ghost use Rattle.ranks.specs.Rest.{at, is_ended};
ghost use Rattle.walk_list.specs.Walk.{spot_of};
ghost use Rattle.session_stages.specs.World.{world};
ghost use Rattle.session_stages.specs.Session.{course_of, ended, outcome};
ghost use Rattle.session_stages.specs.Place.{is_least};

use crate::{Answer, Course, Outcome, Session, Stage};
use record::Refusal;
use ring::Point;

// No coordinate is less.
const LEAST: i32 = -2147483648;

// Before the first point of any job's list.
pub fn before_all() -> Option<Point>
    ensures { spot_of result ≡ at 0 }
{
    Some(Point {
        a: LEAST,
        b: LEAST,
        c: LEAST,
        d: LEAST,
    })
}

// Whether a point is the least of all.
pub fn is_least(v: Point) -> bool
    ensures { result ≡ is_least v }
{
    v.a == LEAST && v.b == LEAST && v.c == LEAST && v.d == LEAST
}

// Whether a walk is past its end.
pub fn is_ended(p: Option<Point>) -> bool
    ensures { result ≡ is_ended (spot_of p) }
{
    matches!(p, None)
}

// The same job, before its first point.
pub fn rewound(c: Course) -> Outcome
    ensures { outcome [] result.session result.answer ≡ step world rewind (course_of c) }
{
    Outcome {
        session: Session {
            stage: Stage::Walking(Course {
                spot: before_all(),
                ..c
            }),
        },
        answer: Answer::Done,
    }
}

// A job at its end, which is reported.
pub fn at_end(c: Course) -> Outcome
    ensures { (result.session.stage ≡ Stage.Walking (ended c)) × (result.answer ≡ Answer.Handed 0 true) }
{
    Outcome {
        session: Session {
            stage: Stage::Walking(Course { spot: None, ..c }),
        },
        answer: Answer::Handed(0, true),
    }
}

// After the end was reported a hand-out is refused.
pub fn after_end(c: Course) -> Outcome
    ensures { (result.session.stage ≡ Stage.Walking c) × (result.answer ≡ Answer.Refused Refusal.Ended) }
{
    Outcome {
        session: Session {
            stage: Stage::Walking(c),
        },
        answer: Answer::Refused(Refusal::Ended),
    }
}
