// Bytes on their way to the system or from it, as a machine without a system: how many have moved, and what a call's answer makes of it. Over every sequence of
// answers the bytes that were taken of a text are a beginning of it, and all of it exactly where the machine ends without a failure (specs/Sending); an input is
// what the reads gave up to the answer 0 (specs/Receiving).
#![tactic(auto)]

ghost use Rattle.std.specs.Prelude.{◌≡◌, true, false, ◌≤◌};
ghost use Rattle.system_transfer.specs.Answers.{answer_of, got_of, number_of, error_of_result};
ghost use Rattle.system_transfer.specs.Transfer.{begun_of, closed_of, moved_of, put_off_of, step_of};

mod patience;

pub use patience::Patience;
use std::io;
use std::io::ErrorKind;

// The system's numbers for an error: the call would have to wait; a signal came first; and one that stands for every other.
const EAGAIN: i32 = 11;

const EINTR: i32 = 4;

const EIO: i32 = 5;

// What a call of read or write came to: it moved so many bytes; it would have to wait; a signal came first; it failed.
#[derive(Clone, Copy)]
pub enum Fault {
    NotNow,
    Interrupted,
    Failed,
}

// So many bytes of a slice have moved; whether more are to be asked for; whether something failed.
#[derive(Clone, Copy)]
pub struct Transfer {
    pub at: usize,
    pub patience: Patience,
    pub more: bool,
    pub failed: bool,
}

// What a call answered, with the error's number after it.
pub fn judged(got: isize, error: i32) -> Result<usize, Fault>
    ensures { result ≡ answer_of got error }
{
    if got >= 0 {
        return Ok(got as usize);
    }
    if error == EAGAIN {
        return Err(Fault::NotNow);
    }
    if error != EINTR {
        return Err(Fault::Failed);
    }
    Err(Fault::Interrupted)
}

// What a reader's or a writer's call answered.
pub fn answered(got: &io::Result<usize>) -> Result<usize, Fault>
    ensures { result ≡ answer_of (got_of got.now) (error_of_result got.now) }
{
    match got {
        Ok(n) => Ok(*n),
        Err(why) => judged(-1, number(why.kind())),
    }
}

// The system's number for a kind of error.
fn number(kind: ErrorKind) -> i32
    ensures { result ≡ number_of kind }
{
    match kind {
        ErrorKind::WouldBlock => EAGAIN,
        ErrorKind::Interrupted => EINTR,
        _ => EIO,
    }
}

// Before the first byte of a slice of length bytes.
pub fn begin(length: usize) -> Transfer
    ensures { result ≡ begun_of length }
{
    Transfer {
        at: 0,
        patience: patience::full(),
        more: 0 < length,
        failed: false,
    }
}

// After the answer to a write of the rest of a text of length bytes: one that takes nothing has failed.
pub fn sent(t: Transfer, length: usize, a: Result<usize, Fault>) -> Transfer
    requires { t.at ≤ length }
    ensures { result ≡ step_of true length t a }
{
    step(true, length, t, a)
}

// After the answer to a read into the rest of a slice of length bytes: one that gives nothing is the end of the input.
pub fn received(t: Transfer, length: usize, a: Result<usize, Fault>) -> Transfer
    requires { t.at ≤ length }
    ensures { result ≡ step_of false length t a }
{
    step(false, length, t, a)
}

// `none` is whether a call that moves nothing has failed.
fn step(none: bool, length: usize, t: Transfer, a: Result<usize, Fault>) -> Transfer
    requires { t.at ≤ length }
    ensures { result ≡ step_of none length t a }
{
    match a {
        Ok(n) => moved(none, length, t, n),
        Err(Fault::NotNow) => put_off(t, true),
        Err(Fault::Interrupted) => put_off(t, false),
        Err(Fault::Failed) => closed(t, true),
    }
}

fn moved(none: bool, length: usize, t: Transfer, n: usize) -> Transfer
    requires { t.at ≤ length }
    ensures { result ≡ moved_of none length t n }
{
    if n == 0 {
        return closed(t, none);
    }
    if n > length - t.at {
        return closed(t, true);
    }
    Transfer {
        at: t.at + n,
        patience: patience::full(),
        more: t.at + n < length,
        failed: false,
    }
}

fn put_off(t: Transfer, waits: bool) -> Transfer
    ensures { result ≡ put_off_of t waits }
{
    let p = t.patience;
    if patience::is_out(p) {
        return closed(t, true);
    }
    Transfer {
        at: t.at,
        patience: patience::less(p, waits),
        more: t.more,
        failed: false,
    }
}

fn closed(t: Transfer, failed: bool) -> Transfer
    ensures { result ≡ closed_of t failed }
{
    let patience = t.patience;
    Transfer {
        at: t.at,
        patience,
        more: false,
        failed,
    }
}
