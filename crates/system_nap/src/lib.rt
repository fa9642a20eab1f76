// A sleep of some milliseconds.
#![tactic(auto)]

ghost use Rattle.std.specs.Prelude.{◌≡◌, ◌<◌, ◌*◌, ◌%◌};
ghost use Rattle.std.specs.Duration.{as_nanos};

use std::thread;
use std::time::{Clock, Duration};

// Sleeps for ms milliseconds, less than a second: for its last three digits. A signal cuts it no shorter.
pub fn milliseconds<C: Clock>(clock: &C, ms: u64) {
    thread::sleep(clock, time_of(ms));
}

fn time_of(ms: u64) -> Duration
    ensures { as_nanos result ≡ 1000000 * (ms % 1000) }
{
    Duration::from_nanos(nanoseconds(ms))
}

fn nanoseconds(ms: u64) -> u64
    ensures below { result < 1000000000 }
    ensures value { result ≡ 1000000 * (ms % 1000) }
{
    1000000 * (ms % 1000)
}
