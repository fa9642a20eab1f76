// The image question: SPEC, "Questions".
#![tactic(auto)]

ghost use Rattle.std.specs.Prelude.{◌≡◌, []};
ghost use Rattle.operator.specs.Operator.{wide};
ghost use Rattle.region.specs.Selection.{listed};
ghost use Rattle.session_model.specs.Session.{image_of};
ghost use Rattle.session_stages.specs.World.{is_image};
ghost use Rattle.session_stages.specs.Session.{Steps};

use operator::{Operator, WidePoint};
use record::Refusal;
use region::Job;
use ring::Point;
use session_stages::{Answer, Session, Stage};

// Whether w is what the remembered operator makes of a listed point.
pub fn has_image(s: Session, w: Point) -> Answer
    ensures { Steps (image_of w) [] s s result }
{
    match s.stage {
        Stage::Early(_) => Answer::Refused(Refusal::NoJob),
        Stage::Walking(c) => Answer::Says(is_image(c.job, c.operator, w)),
    }
}

// Whether the operator's inverse sends w to a listed point.
pub fn is_image(job: Job, g: Operator, w: Point) -> bool
    ensures { result ≡ is_image job g w }
{
    match g.inverse() {
        Ok(h) => lists_wide(job, h.image(w)),
        Err(_) => false,
    }
}

// A point beyond 32 bits is in no job's list.
fn lists_wide(job: Job, v: WidePoint) -> bool
    ensures { result ≡ listed job (wide v) }
{
    match v.narrow() {
        Some(u) => region_membership::lists(job, u),
        None => false,
    }
}
