// An input, whole or as far as it has come. A read that fails is no end: it leaves a line on standard error that begins with the input's name.
ghost use Rattle.std.specs.Prelude.{◌≤◌, length, ◌≡◌, true, false, cond, eqb};
ghost use Rattle.system_transfer.specs.Receiving.{Turn, Received, Arrived};

use crate::{failure, wait};
use std::io;
use std::io::Read;
use std::time::Clock;
use system_transfer::Transfer;

// Reads until the input ends, buf is full or a read fails.
pub fn read<R: Read, S: Eprint + Clock>(
    from: &mut R,
    rt: &S,
    name: &[u8],
    buf: &mut [u8],
) -> Transfer
    ensures { Received buf.new result }
{
    gather(from, rt, name, buf, true)
}

// Reads what there is, and waits for it where there is nothing: no byte only where the input ends, buf has no room or a read fails.
pub fn read_some<R: Read, S: Eprint + Clock>(
    from: &mut R,
    rt: &S,
    name: &[u8],
    buf: &mut [u8],
) -> Transfer
    ensures { Arrived buf.new result }
{
    gather(from, rt, name, buf, false)
}

// Both: `whole` is whether the reads go on behind the first byte.
fn gather<R: Read, S: Eprint + Clock>(
    from: &mut R,
    rt: &S,
    name: &[u8],
    buf: &mut [u8],
    whole: bool,
) -> Transfer
    ensures all { whole ≡ true → Received buf.new result }
    ensures some { whole ≡ false → Arrived buf.new result }
{
    let mut t = system_transfer::begin(buf.len());
    let mut last = Ok(0);
    while asks(t, whole) {
        let (next, got) = fetch(from, rt, buf, t);
        t = next;
        last = got;
    }
    if t.failed {
        failure::fail(rt, name, failure::reason(last));
    }
    t
}

fn asks(t: Transfer, whole: bool) -> bool
    ensures { result ≡ cond t.more (cond whole true (eqb t.at 0)) false }
{
    t.more && (whole || t.at == 0)
}

// A read into the rest of buf, and the step that its answer makes.
fn fetch<R: Read, C: Clock>(
    from: &mut R,
    clock: &C,
    buf: &mut [u8],
    t: Transfer,
) -> (Transfer, io::Result<usize>)
    requires { t.at ≤ length buf.old }
    ensures { Turn t result.0 buf.old buf.new }
{
    let at = t.at;
    let got = from.read(&mut buf[at..]);
    let a = system_transfer::answered(&got);
    wait::after(clock, a, t.patience);
    (system_transfer::received(t, buf.len(), a), got)
}
