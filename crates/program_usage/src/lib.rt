// How a program answers arguments that it does not take, `--help` or any other: by its usage on standard error, and nothing else.
#![tactic(auto)]

ghost use Rattle.std.specs.Prelude.{◌≡◌, true};
ghost use Rattle.program_usage.specs.Said.{Said};

use std::env::{Env, FillError};
use std::io::Write;
use std::time::Clock;

// Whether there is an argument; the text has then been offered.
pub fn told<R: Env + Clock, W: Write>(rt: &R, to: &mut W, text: &[u8]) -> bool
    ensures { result ≡ true → Said text.now }
{
    if !has_argument(rt, 1) {
        return false;
    }
    say(rt, to, text);
    true
}

// Whether there is an argument at a place, that is from 1 on. No contract: what std's `arg` answers is the system's, and its clause says only how much it writes.
pub fn has_argument<R: Env>(rt: &R, i: usize) -> bool {
    let mut first = [0u8; 1];
    !matches!(rt.arg(i, &mut first), Err(FillError::NotPresent))
}

// Offers the text to standard error, or to any other writer.
pub fn say<C: Clock, W: Write>(clock: &C, to: &mut W, text: &[u8])
    ensures { Said text.now }
{
    system_streams::send(to, clock, text);
}
