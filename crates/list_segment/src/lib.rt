// A segment of a job's list: its points with a first coordinate from one number to another, as lines on standard output. SPEC, "List program".
#![tactic(auto)]

ghost use Rattle.std.specs.Prelude.{◌≡◌, false, ◌*◌, ◌≤◌, length, take};
ghost use Rattle.walk_list.specs.Walk.{full, rank_of};
ghost use Rattle.ring_points.specs.Slices.{points_of};
ghost use Rattle.list_segment.specs.Part.{part_lines};
ghost use Rattle.list_segment.specs.Ranks.{first_from};
ghost use Rattle.list_segment.specs.Leading.{leading};
ghost use Rattle.list_segment.specs.Segment.{up_to, Paged};
ghost use Rattle.list_segment.specs.Printed.{Printed};

use region::Job;
use ring::Point;
use std::time::Clock;

// No coordinate is less.
const LEAST: i32 = -2147483648;

// A piece of lines: where the segment goes on, whether it does, and the length of the lines.
#[derive(Clone, Copy)]
struct Piece {
    from: Point,
    more: bool,
    length: usize,
}

// Prints the lines of the points with a from lo to hi, page after page: whether all were taken.
pub fn print<R: Print + Eprint + Clock>(rt: &R, job: Job, lo: i32, hi: i32) -> bool
    ensures { Printed (part_lines job.k lo hi (full job)) result }
{
    let mut space = output_buffer();
    let out: &mut [u8] = &mut space;
    let mut from = first(lo);
    let mut more = true;
    // A while: each page says where the next one begins.
    while more {
        let p = page(job, from, hi, out);
        let n = p.length;
        if !system_streams::print(rt, &out[..n]) {
            return false;
        }
        from = p.from;
        more = p.more;
    }
    true
}

// The least point with that a.
fn first(a: i32) -> Point
    ensures { rank_of result ≡ first_from a }
{
    Point {
        a,
        b: LEAST,
        c: LEAST,
        d: LEAST,
    }
}

// One hand-out's lines, cut where a goes past hi.
fn page(job: Job, from: Point, hi: i32, out: &mut [u8]) -> Piece
    requires { length out.old ≡ 131072 }
    ensures { Paged job hi from result out.old out.new }
{
    let mut points = point_buffer();
    let h = walk::hand_out(job, Some(from), &mut points);
    let n = cut(&points, h.count, hi);
    let length = list_lines::put_points(out, &points, n, job.k);
    if n < h.count {
        return last(from, length);
    }
    let s = h.spot;
    match s {
        Some(v) => Piece {
            from: v,
            more: true,
            length,
        },
        None => last(from, length),
    }
}

fn last(from: Point, length: usize) -> Piece
    ensures { (result.more ≡ false) × (result.length ≡ length) }
{
    Piece {
        from,
        more: false,
        length,
    }
}

// How many of the first n points come before the first whose a is greater than hi.
fn cut(points: &[i32], n: usize, hi: i32) -> usize
    requires { 4 * n ≤ length points.now }
    ensures { result ≡ length (leading (up_to hi) (points_of (take (4 * n) points.now))) }
{
    let mut i = 0;
    while i < n {
        let v = ring_points::point_at(points, i);
        if hi < v.a {
            return i;
        }
        i += 1;
    }
    i
}

// Room for 1,872 points, and for their lines, of at most 70 bytes each.
fn point_buffer() -> [i32; 7488]
    ensures { 7488 ≡ length result }
{
    [0; 7488]
}

fn output_buffer() -> [u8; 131072]
    ensures { 131072 ≡ length result }
{
    [0; 131072]
}
