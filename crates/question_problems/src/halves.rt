// The upper halves of strips.
ghost use Rattle.std.specs.Prelude.{◌≤◌, nat_abs};
ghost use Rattle.question_strips.specs.Strips.{end_size, Ends};

use line_rows::Band;
use question_strips::Strips;
use ring::RootTwo;

// Half way from x to y, or near it.
fn middle(x: i64, y: i64) -> i64
    requires { (nat_abs x ≤ end_size) × (nat_abs y ≤ end_size) }
    ensures { nat_abs result ≤ end_size }
{
    if x == y { x } else { x / 2 + y / 2 }
}

fn upper_half(s: Band) -> Band
    requires { Ends s }
    ensures { Ends result }
{
    let l = s.lo;
    let h = s.hi;
    Band {
        m: s.m,
        lo: RootTwo {
            p: middle(l.p, h.p),
            q: middle(l.q, h.q),
        },
        hi: h,
    }
}

// The upper halves: a search of their line begins in the middle of both.
pub fn upper(s: Strips) -> Strips
    requires { Ends s.first × Ends s.second }
    ensures { Ends result.first × Ends result.second }
{
    let f = s.first;
    let g = s.second;
    Strips {
        first: upper_half(f),
        second: upper_half(g),
    }
}
