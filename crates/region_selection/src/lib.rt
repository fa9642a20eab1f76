// Which points a job takes by their exponent: SPEC, "Selection".
#![tactic(auto)]

ghost use Rattle.std.specs.Prelude.{◌≡◌};
ghost use Rattle.region.specs.Selection.{is_new, selects};

use region::Job;
use ring::Point;

// Whether v/√2^k has the exponent k: at 0 each has, else those that √2 does not divide.
pub fn is_new(k: u8, v: Point) -> bool
    ensures { result ≡ is_new k v }
{
    if k == 0 {
        return true;
    }
    match v.divide_root2() {
        Some(_) => false,
        None => true,
    }
}

// Whether the job takes points of v's exponent.
pub fn selects(job: Job, v: Point) -> bool
    ensures { result ≡ selects job v }
{
    job.all || is_new(job.k, v)
}
