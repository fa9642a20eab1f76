// What a job's regions say of a coordinate ζ with √2·ζ = u·X + v·Y: a strip lo ≤ n·ζ ≤ hi for ζ, and one for its conjugate.
#![tactic(auto)]

ghost use Rattle.std.specs.Prelude.{◌≡◌, true, ◌≤◌};
ghost use Rattle.ring.specs.RootTwo.{conj};
ghost use Rattle.ring.specs.RootTwo.Power.{turn};
ghost use Rattle.region.specs.Region.{top_scale, accepted, accepted_job};
ghost use Rattle.question_strips.specs.Reach.{Short, Direction};
ghost use Rattle.question_strips.specs.Strips.{StripOf, StripsOf};

mod reach;
mod sharp;
pub mod units;

use line_rows::Band;
use reach::over;
use region::{Job, Region};
use ring::RootTwo;
use ring_surds::{conjugate, opposite, power, product};

// Of ζ and of its conjugate.
#[derive(Clone, Copy)]
pub struct Strips {
    pub first: Band,
    pub second: Band,
}

fn strip(region: Region, k: u8, u: RootTwo, v: RootTwo) -> Band
    requires { (accepted region ≡ true) × (k ≤ top_scale) × Direction u v }
    ensures { StripOf region k u v result }
{
    let w = power(k);
    let h = over(region, u, v);
    let l = over(region, opposite(u), opposite(v));
    Band {
        m: region.scale() as i64,
        lo: opposite(product(l, w)),
        hi: product(h, w),
    }
}

// (−1)^k u•.
fn turned(k: u8, u: RootTwo) -> RootTwo
    requires { Short u }
    ensures { (result ≡ turn k (conj u)) × Short result }
{
    let c = conjugate(u);
    if k % 2 == 0 { c } else { opposite(c) }
}

// The strips of ζ and of its conjugate, for the solutions of a job.
pub fn of_job(job: Job, u: RootTwo, v: RootTwo) -> Strips
    requires { (accepted_job job ≡ true) × Direction u v }
    ensures { StripsOf job u v result }
{
    let k = job.k;
    let a = job.a;
    let b = job.b;
    Strips {
        first: strip(a, k, u, v),
        second: strip(b, k, turned(k, u), turned(k, v)),
    }
}
