// The bench's session that numbers are.
ghost use Rattle.std.specs.Prelude.{◌≡◌};
ghost use Rattle.library_numbers.specs.Numbers.{is_set, point_of, operator_of, rectangle_of, ellipse_of, slice_of, region_of, spot_of, course_of, stage_of, bench_of};

use crate::tallies::tally_of;
use crate::{Eight, Four, Shape, State};
use operator::Operator;
use region::{Ellipse, Job, Rectangle, Region, Slice};
use ring::Point;
use session_stages::{Course, Parts, Session, Stage};
use session_tallying::Tallied;

// Whether a flag is set: it is not 0.
pub fn is_set(x: u8) -> bool
    ensures { result ≡ is_set x }
{
    x != 0
}

// The point of four numbers.
pub fn point_of(f: Four) -> Point
    ensures { result ≡ point_of f }
{
    Point {
        a: f.a,
        b: f.b,
        c: f.c,
        d: f.d,
    }
}

// The operator of eight numbers.
pub fn operator_of(f: Eight) -> Operator
    ensures { result ≡ operator_of f }
{
    Operator {
        a: f.a,
        b: f.b,
        c: f.c,
        d: f.d,
        ai: f.ai,
        bi: f.bi,
        ci: f.ci,
        di: f.di,
    }
}

fn rectangle_of(s: Shape) -> Rectangle
    ensures { result ≡ rectangle_of s }
{
    Rectangle {
        n: s.n,
        xl: s.xl,
        xh: s.xh,
        yl: s.yl,
        yh: s.yh,
    }
}

fn ellipse_of(s: Shape) -> Ellipse
    ensures { result ≡ ellipse_of s }
{
    Ellipse {
        n: s.n,
        cx: s.cx,
        cy: s.cy,
        p: s.p,
        q: s.q,
        r: s.r,
        s: s.s,
    }
}

fn slice_of(s: Shape) -> Slice
    ensures { result ≡ slice_of s }
{
    Slice {
        n: s.n,
        zx: s.zx,
        zy: s.zy,
        w: s.w,
    }
}

// The region of a shape.
pub fn region_of(s: Shape) -> Region
    ensures { result ≡ region_of s }
{
    match s.kind {
        2 => Region::Rectangle(rectangle_of(s)),
        3 => Region::Ellipse(ellipse_of(s)),
        _ => Region::Slice(slice_of(s)),
    }
}

// The place of a walk.
pub fn spot_of(ended: u8, v: Point) -> Option<Point>
    ensures { result ≡ spot_of ended v }
{
    if ended == 0 { Some(v) } else { None }
}

fn course_of(s: State) -> Course
    ensures { result ≡ course_of s }
{
    Course {
        job: Job {
            k: s.k,
            all: is_set(s.all),
            a: region_of(s.a),
            b: region_of(s.b),
        },
        spot: spot_of(s.ended, point_of(s.spot)),
        operator: operator_of(s.operator),
    }
}

fn stage_of(s: State) -> Stage
    ensures { result ≡ stage_of s }
{
    match s.stage {
        1 => Stage::Early(Parts::Scaled(s.k)),
        2 => Stage::Early(Parts::Selected(s.k, is_set(s.all))),
        3 => Stage::Early(Parts::First(s.k, is_set(s.all), region_of(s.a))),
        4 => Stage::Walking(course_of(s)),
        _ => Stage::Early(Parts::Nothing),
    }
}

// The session, with its tally.
pub fn session_of(s: State) -> Tallied
    ensures { result ≡ bench_of s }
{
    Tallied {
        session: Session { stage: stage_of(s) },
        tally: tally_of(s.tally),
    }
}
