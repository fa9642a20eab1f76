// The walk of a tray: SPEC, "Trays". The lists of its regions' jobs, each in point order, are merged into one; a point comes once, with the regions that list it.
#![tactic(auto)]

ghost use Rattle.std.specs.Prelude.{◌≡◌, ◌+◌, ◌*◌, ◌/◌, ◌≤◌, ◌<◌, min, pos, length, set};
ghost use Rattle.std.proofs.lemmas.List.Edits.{sets};
ghost use Rattle.ranks.specs.Rest.{left_at};
ghost use Rattle.ranks.specs.Rank.{top};
ghost use Rattle.ranks.specs.Handed.{Gave};
ghost use Rattle.cuts.specs.Digits.{span};
ghost use Rattle.walk_list.specs.Walk.{rank_of, numbers_in, spot_of};
ghost use Rattle.tray_list.specs.Tray.{any_at, five_of, left};

mod floor;
mod lanes;
mod order;

use lanes::Mark;
use ring::Point;
use tray_list::Tray;
use walk::Handed;

// As many of the points that the tray lists from a spot on as the slice has space for, five numbers a point.
pub fn hand_out(t: Tray, from: Option<Point>, out: &mut [i32]) -> Handed
    ensures { Gave (five_of t) 5 (left_at (any_at t) (top span) (spot_of from)) out.old (length out.old / 5) result.count out.new (spot_of result.spot) }
{
    match from {
        Some(v) => deal(t, v, out),
        None => Handed {
            count: 0,
            spot: None,
        },
    }
}

// The same from a point on.
fn deal(t: Tray, from: Point, out: &mut [i32]) -> Handed
    ensures { Gave (five_of t) 5 (left t (rank_of from)) out.old (length out.old / 5) result.count out.new (spot_of result.spot) }
{
    let space = out.len() / 5;
    let size = regions(t.count);
    let start = lanes::floors(t, from);
    let close = lanes::reach(start, size);
    let sources = lanes::open(t, start, close);
    let mut queue = lanes::queue();
    let mut at = [0usize; 8];
    let mut end = [0usize; 8];
    let room = space / 2 + 1;
    let near = lanes::refill(
        sources, start, size, room, close, &mut queue, &mut at, &mut end,
    );
    let g = lanes::nearest(&queue, &at, &end, size);
    let mut after = lanes::refill(sources, near, size, room, g, &mut queue, &mut at, &mut end);
    let mut f = lanes::nearest(&queue, &at, &end, size);
    let mut far = lanes::reach(after, size);
    let mut k = 0;
    // A while: how many points were handed out is asked for behind it, also where they end early.
    while k < space {
        match f {
            Some(v) => {
                let n = regions(t.count);
                let s = lanes::advance(&queue, &mut at, &end, n, v);
                put_five(out, 5 * k, v, s.mask);
                k += 1;
                f = s.spot;
                if !order::past(far, f) {
                    let room = space - k + 1;
                    let marks = lanes::refill(
                        sources, after, n, room, f, &mut queue, &mut at, &mut end,
                    );
                    after = marks;
                    f = lanes::nearest(&queue, &at, &end, n);
                    far = lanes::reach(after, n);
                }
            }
            None => {
                break;
            }
        }
    }
    Handed { count: k, spot: f }
}

// So many of a tray's regions count.
fn regions(count: usize) -> usize
    ensures { result ≡ min count 8 }
{
    if count < 8 { count } else { 8 }
}

// A point and its regions written to five numbers of the slice, from k on.
fn put_five(out: &mut [i32], k: usize, v: Point, mask: u32)
    requires { (k + 5 ≤ length out.old) × (mask < 256) }
    ensures { out.new ≡ set (sets out.old k (numbers_in (rank_of v))) (k + 4) (pos mask) }
{
    ring_points::put(out, k, v);
    out[k + 4] = mask as i32;
}
