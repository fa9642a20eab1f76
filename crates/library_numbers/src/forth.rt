// The numbers of the bench's session.
ghost use Rattle.std.specs.Prelude.{◌≡◌};
ghost use Rattle.session_stages.specs.declared.Stage.TheVariants as stages;
ghost use Rattle.library_numbers.specs.Numbers.{bit, is_set, point_of, four_of, eight_of, rectangle_of, ellipse_of, slice_of, region_of, spot_of, stage_of, bench_of};

use crate::tallies::counts_of;
use crate::{Counts, Eight, Four, Shape, State};
use operator::Operator;
use region::{Ellipse, Rectangle, Region, Slice};
use ring::Point;
use session_stages::{Course, Parts, Stage};
use session_tallying::Tallied;

// 1 for yes: C has no `bool` of Rattle's, and a flag there is a byte.
pub fn flag(x: bool) -> u8
    ensures { result ≡ bit x }
{
    u8::from(x)
}

fn of_rectangle(x: Rectangle) -> Shape
    ensures { (result.kind ≡ 2) × (rectangle_of result ≡ x) }
{
    Shape {
        kind: 2,
        n: x.n,
        xl: x.xl,
        xh: x.xh,
        yl: x.yl,
        yh: x.yh,
        ..Shape::NONE
    }
}

fn of_ellipse(x: Ellipse) -> Shape
    ensures { (result.kind ≡ 3) × (ellipse_of result ≡ x) }
{
    Shape {
        kind: 3,
        n: x.n,
        cx: x.cx,
        cy: x.cy,
        p: x.p,
        q: x.q,
        r: x.r,
        s: x.s,
        ..Shape::NONE
    }
}

fn of_slice(x: Slice) -> Shape
    ensures { (result.kind ≡ 5) × (slice_of result ≡ x) }
{
    Shape {
        kind: 5,
        n: x.n,
        zx: x.zx,
        zy: x.zy,
        w: x.w,
        ..Shape::NONE
    }
}

// The numbers of a region.
pub fn shape_of(r: Region) -> Shape
    ensures { region_of result ≡ r }
{
    match r {
        Region::Rectangle(x) => of_rectangle(x),
        Region::Ellipse(x) => of_ellipse(x),
        Region::Slice(x) => of_slice(x),
    }
}

// A place of the walk.
#[derive(Clone, Copy)]
pub struct Place {
    pub ended: u8,
    pub v: Four,
}

// The numbers of a point.
pub fn four_of(v: Point) -> Four
    ensures { result ≡ four_of v }
{
    Four {
        a: v.a,
        b: v.b,
        c: v.c,
        d: v.d,
    }
}

// The numbers of an operator.
pub fn eight_of(g: Operator) -> Eight
    ensures { result ≡ eight_of g }
{
    Eight {
        a: g.a,
        b: g.b,
        c: g.c,
        d: g.d,
        ai: g.ai,
        bi: g.bi,
        ci: g.ci,
        di: g.di,
    }
}

// The numbers of a place.
pub fn spotted(p: Option<Point>) -> Place
    ensures { spot_of result.ended (point_of result.v) ≡ p }
{
    match p {
        Some(v) => Place {
            ended: 0,
            v: four_of(v),
        },
        None => Place {
            ended: 1,
            v: Four::NONE,
        },
    }
}

fn early(p: Parts, counts: Counts) -> State
    ensures { (stage_of result ≡ stages.Early p) × (result.tally ≡ counts) }
{
    match p {
        Parts::Nothing => part(0, 0, false, Shape::NONE, counts),
        Parts::Scaled(k) => part(1, k, false, Shape::NONE, counts),
        Parts::Selected(k, all) => part(2, k, all, Shape::NONE, counts),
        Parts::First(k, all, a) => part(3, k, all, shape_of(a), counts),
    }
}

// A job that is not whole.
fn part(stage: u8, k: u8, all: bool, a: Shape, counts: Counts) -> State
    ensures { (result.stage ≡ stage) × (result.k ≡ k) × (is_set result.all ≡ all) × (result.a ≡ a) × (result.tally ≡ counts) }
{
    State {
        stage,
        k,
        all: flag(all),
        ended: 0,
        a,
        b: Shape::NONE,
        spot: Four::NONE,
        operator: Eight::NONE,
        tally: counts,
    }
}

fn walking(c: Course, counts: Counts) -> State
    ensures { (stage_of result ≡ stages.Walking c) × (result.tally ≡ counts) }
{
    let p = spotted(c.spot);
    State {
        stage: 4,
        k: c.job.k,
        all: flag(c.job.all),
        ended: p.ended,
        a: shape_of(c.job.a),
        b: shape_of(c.job.b),
        spot: p.v,
        operator: eight_of(c.operator),
        tally: counts,
    }
}

// The numbers of a session with its tally.
pub fn state_of(b: Tallied) -> State
    ensures { bench_of result ≡ b }
{
    let counts = counts_of(b.tally);
    match b.session.stage {
        Stage::Early(p) => early(p, counts),
        Stage::Walking(c) => walking(c, counts),
    }
}
