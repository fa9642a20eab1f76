// The strips of the real and imaginary parts of the points Gv, for the solutions v.
ghost use Rattle.std.specs.Prelude.{◌≡◌, true};
ghost use Rattle.ring.specs.Point.{√2x, √2y};
ghost use Rattle.region.specs.Region.{accepted_job};
ghost use Rattle.operator.specs.Inverse.{one, im};
ghost use Rattle.question_strips.specs.Strips.{StripsOf};
ghost use Rattle.question_reduction.specs.Undoing.{Undoing};

use crate::Invertible;
use operator::Operator;
use question_strips::{Strips, of_job};
use region::Job;
use ring::Point;

pub(crate) fn one(g: Operator) -> Point
    ensures { result ≡ one g }
{
    Point {
        a: g.a as i32,
        b: g.b as i32,
        c: g.c as i32,
        d: g.d as i32,
    }
}

pub(crate) fn im(g: Operator) -> Point
    ensures { result ≡ im g }
{
    Point {
        a: g.ai as i32,
        b: g.bi as i32,
        c: g.ci as i32,
        d: g.di as i32,
    }
}

// The strips of the real part of Gv for the solutions v.
pub fn real_strips(job: Job, g: Invertible) -> Strips
    requires { (accepted_job job ≡ true) × Undoing g }
    ensures { StripsOf job (√2x (one g.there)) (√2x (im g.there)) result }
{
    let h = g.there;
    let o = one(h);
    let i = im(h);
    of_job(job, o.real(), i.real())
}

// The same of the imaginary part.
pub fn imaginary_strips(job: Job, g: Invertible) -> Strips
    requires { (accepted_job job ≡ true) × Undoing g }
    ensures { StripsOf job (√2y (one g.there)) (√2y (im g.there)) result }
{
    let h = g.there;
    let o = one(h);
    let i = im(h);
    of_job(job, o.imaginary(), i.imaginary())
}
