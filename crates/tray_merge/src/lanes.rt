// Lanes: the next points of each region of a tray, a few of them in a queue, filled from the region's own walk.
ghost use Rattle.std.specs.Prelude.{◌≡◌, cond, true, false, ℕ, ◌+◌, ◌*◌, ◌/◌, ◌≤◌, ◌<◌, length, get_or};
ghost use Rattle.ranks.specs.Rest.{at, ended};
ghost use Rattle.ranks.specs.Handed.{Gave};
ghost use Rattle.walk_list.specs.Walk.{numbers_in, rank_of, spot_of};
ghost use Rattle.tray_list.specs.Nearer.{is_at};
ghost use Rattle.tray_merge.specs.Past.{past, nearest_of};
ghost use Rattle.tray_merge.specs.Lane.{point_ranked, front_of, left_of, content, Elsewhere};
ghost use Rattle.tray_merge.specs.Lanes.{Made, source_at, mark_at, front_at, Floors, Ready, Within, Stepped, Refilled};

use crate::{floor, order};
use cuts::Bounds;
use region::Job;
use ring::Point;
use tray_list::Tray;
use walk::Handed;

// So many points of a region are queued at most.
const LANE: usize = 512;

// A region's job, and if it is near, made ready for hand-outs.
#[derive(Clone, Copy)]
pub(crate) struct Source {
    pub job: Job,
    pub near: bool,
    pub walk: Result<Bounds, Job>,
}

// Where a region's walk goes on behind its queue.
#[derive(Clone, Copy)]
pub(crate) struct Mark {
    pub spot: Option<Point>,
}

// A lane behind a point: 1 if the point was its front, else 0; the place of its front, and the front.
#[derive(Clone, Copy)]
struct Behind {
    held: u32,
    at: usize,
    front: Option<Point>,
}

// All lanes behind a point: the regions that listed it, and the nearest of the points that are queued.
#[derive(Clone, Copy)]
pub(crate) struct Step {
    pub mask: u32,
    pub spot: Option<Point>,
}

pub(crate) fn queue() -> [i32; 16384]
    ensures { 16384 ≡ length result }
{
    [0; 16384]
}

// Where the walks of a tray's regions go on from a point.
pub(crate) fn floors(t: Tray, from: Point) -> [Mark; 8]
    ensures { Floors t (at (rank_of from)) result }
{
    let size = tray_list::size(t);
    let mut marks = [Mark { spot: None }; 8];
    for j in 0..size {
        let spot = floor::floor(tray_list::job(t, j), from);
        marks[j] = Mark { spot };
    }
    marks
}

// The jobs of a tray's regions, with bounds where its walk goes on near the nearest spot.
pub(crate) fn open(t: Tray, marks: [Mark; 8], near: Option<Point>) -> [Source; 8]
    ensures { Ready t result }
{
    let size = tray_list::size(t);
    let mut sources = [made(tray_list::job(t, 0), false); 8];
    for j in 0..size {
        let job = tray_list::job(t, j);
        sources[j] = made(job, floor::is_near(marks[j].spot, near));
    }
    sources
}

fn made(job: Job, near: bool) -> Source
    ensures { Made job result }
{
    let walk = if near { walk::prepare(job) } else { Err(job) };
    Source { job, near, walk }
}

// The point at a place of the queue.
fn point_at(queue: &[i32], k: usize) -> Point
    requires { k + 3 < length queue.now }
    ensures { result ≡ point_ranked queue.now k }
{
    Point {
        a: queue[k],
        b: queue[k + 1],
        c: queue[k + 2],
        d: queue[k + 3],
    }
}

// The front of lane number j, whose place is i and whose queue ends at e.
fn front(queue: &[i32], j: usize, i: usize, e: usize) -> Option<Point>
    requires { (j < 8) × (e ≤ 512) × (16384 ≡ length queue.now) }
    ensures { spot_of result ≡ front_of queue.now j i e }
{
    if i < e {
        return Some(point_at(queue, 2048 * j + 4 * i));
    }
    None
}

// The lane of region number j behind a point that none comes before.
fn pass(queue: &[i32], j: usize, i: usize, e: usize, v: Point) -> Behind
    requires { (j < 8) × (i ≤ e) × (e ≤ 512) × (16384 ≡ length queue.now) }
    ensures { (result.held ≡ cond (is_at (front_of queue.now j i e) (rank_of v)) 1 0) × (result.at ≡ i + result.held) × (result.at ≤ e) × (spot_of result.front ≡ front_of queue.now j result.at e) }
{
    let f = front(queue, j, i, e);
    if !order::is_at(f, v) {
        return Behind {
            held: 0,
            at: i,
            front: f,
        };
    }
    let n = i + 1;
    Behind {
        held: 1,
        at: n,
        front: front(queue, j, n, e),
    }
}

// All lanes behind the point that is next.
pub(crate) fn advance(
    queue: &[i32],
    at: &mut [usize; 8],
    end: &[usize; 8],
    size: usize,
    v: Point,
) -> Step
    requires { (size ≤ 8) × (16384 ≡ length queue.now) × Within size at.old end.now × (length at.old ≡ 8) }
    ensures { Stepped queue.now at.old at.new end.now size (rank_of v) result.mask (spot_of result.spot) }
{
    let mut mask: u32 = 0;
    let mut bit: u32 = 1;
    let mut spot = None;
    for j in 0..size {
        let p = pass(queue, j, at[j], end[j], v);
        at[j] = p.at;
        mask += p.held * bit;
        bit *= 2;
        spot = order::nearer(spot, p.front);
    }
    Step { mask, spot }
}

// The nearest of the points that are queued.
pub(crate) fn nearest(
    queue: &[i32],
    at: &[usize; 8],
    end: &[usize; 8],
    size: usize,
) -> Option<Point>
    requires { (size ≤ 8) × (16384 ≡ length queue.now) × Within size at.now end.now }
    ensures { spot_of result ≡ nearest_of size (front_at queue.now at.now end.now) }
{
    let mut spot = None;
    for j in 0..size {
        let f = front(queue, j, at[j], end[j]);
        spot = order::nearer(spot, f);
    }
    spot
}

// How many points are queued next, where n were.
fn grown(n: usize) -> usize
    ensures { (0 < result) × (result ≤ 512) }
{
    if n == 0 {
        return 8;
    }
    if n < 128 { 4 * n } else { LANE }
}

// A hand-out of a region's job.
fn walk_on(s: Source, from: Option<Point>, out: &mut [i32]) -> Handed
    requires { Made s.job s }
    ensures { Gave numbers_in 4 (left_of s.job (spot_of from)) out.old (length out.old / 4) result.count out.new (spot_of result.spot) }
{
    if s.near {
        walk::hand_out_of(s.walk, from, out)
    } else {
        walk::hand_out(s.job, from, out)
    }
}

// The queue of region number j from a spot on: n of its points, or all if they are fewer.
fn fill(s: Source, n: usize, j: usize, from: Option<Point>, queue: &mut [i32]) -> Handed
    requires { Made s.job s × (0 < n) × (n ≤ 512) × (j < 8) × (16384 ≡ length queue.old) }
    ensures { (content s.job queue.new j 0 result.count (spot_of result.spot) ≡ left_of s.job (spot_of from)) × (result.count ≤ 512) × (0 ≡ result.count → spot_of result.spot ≡ ended) × Elsewhere j queue.old queue.new }
{
    let start = 2048 * j;
    let end = start + 4 * n;
    walk_on(s, from, &mut queue[start..end])
}

// The nearest of the marks.
pub(crate) fn reach(marks: [Mark; 8], size: usize) -> Option<Point>
    requires { size ≤ 8 }
    ensures { spot_of result ≡ nearest_of size (mark_at marks) }
{
    let mut spot = None;
    for m in &marks[..size] {
        spot = order::nearer(spot, m.spot);
    }
    spot
}

// Whether a lane is at its queue's end, and its walk goes on before or at the front.
fn is_due(i: usize, e: usize, m: Mark, front: Option<Point>) -> bool
    ensures { (result ≡ true → i ≡ e) × (result ≡ false → i ≡ e → past (spot_of m.spot) (spot_of front) ≡ true) }
{
    i == e && !order::past(m.spot, front)
}

// Lanes that came to the end of their queues go on, if the front has come to their marks: at most so many points of each are queued as there is room for.
pub(crate) fn refill(
    sources: [Source; 8],
    marks: [Mark; 8],
    size: usize,
    room: usize,
    front: Option<Point>,
    queue: &mut [i32],
    at: &mut [usize; 8],
    end: &mut [usize; 8],
) -> [Mark; 8]
    requires { (size ≤ 8) × (0 < room) × (16384 ≡ length queue.old) × Within size at.old end.old × ((i : ℕ) → i < size → Made (source_at sources i).job (source_at sources i)) × (length at.old ≡ 8) × (length end.old ≡ 8) }
    ensures { Refilled (λ i. (source_at sources i).job) size queue.old at.old end.old marks (spot_of front) queue.new at.new end.new result }
{
    let mut after = marks;
    for j in 0..size {
        let e = end[j];
        let m = after[j];
        if is_due(at[j], e, m, front) {
            let h = fill(sources[j], grown(e).min(room), j, m.spot, queue);
            at[j] = 0;
            end[j] = h.count;
            after[j] = Mark { spot: h.spot };
        }
    }
    after
}
