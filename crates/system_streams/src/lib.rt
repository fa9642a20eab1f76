// Standard output, an input and any writer: the loops around a call of read or write, one call and one step of the machine (crate system_transfer) a turn.
#![tactic(auto)]

ghost use Rattle.std.specs.Prelude.{◌≤◌, length, is_ok};
ghost use Rattle.system_transfer.specs.Sending.{Turn, Sent};

mod failure;
mod files;
mod reading;
mod wait;

pub use failure::fail;
pub use files::open;
pub use reading::{read, read_some};
use std::io;
use std::io::Write;
use std::time::Clock;
use system_transfer::Transfer;

// Writes the text to standard output: whether all of it was taken. Where not, a line on standard error says why.
pub fn print<R: Print + Eprint + Clock>(rt: &R, text: &[u8]) -> bool
    ensures { Sent text.now result }
{
    let mut to = io::writer(rt);
    match deliver(&mut to, rt, text) {
        Ok(()) => true,
        Err(why) => {
            fail(rt, b"standard output", why);
            false
        }
    }
}

// Writes the text to a writer: whether all of it was taken.
pub fn send<W: Write, C: Clock>(to: &mut W, clock: &C, text: &[u8]) -> bool
    ensures { Sent text.now result }
{
    deliver(to, clock, text).is_ok()
}

// The same, with the error of the last write where not all of the text was taken.
fn deliver<W: Write, C: Clock>(to: &mut W, clock: &C, text: &[u8]) -> io::Result<()>
    ensures { Sent text.now (is_ok result) }
{
    let mut t = system_transfer::begin(text.len());
    let mut last = Ok(0);
    while t.more {
        let (next, got) = offer(to, clock, text, t);
        t = next;
        last = got;
    }
    if !t.failed {
        return Ok(());
    }
    Err(failure::reason(last))
}

// A write of what is left of the text, and the step that its answer makes.
fn offer<W: Write, C: Clock>(
    to: &mut W,
    clock: &C,
    text: &[u8],
    t: Transfer,
) -> (Transfer, io::Result<usize>)
    requires { t.at ≤ length text.now }
    ensures { Turn text.now t result.0 }
{
    let at = t.at;
    let got = to.write(&text[at..]);
    let a = system_transfer::answered(&got);
    wait::after(clock, a, t.patience);
    (system_transfer::sent(t, text.len(), a), got)
}
