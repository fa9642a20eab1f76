// What the programs share that print one text for their whole input (specs/Answered).
#![tactic(auto)]

ghost use Rattle.std.specs.Prelude.{◌≡◌, ◌^◌, ◌<◌, ◌≤◌, ℕ, List, length, take};
ghost use Rattle.system_transfer.specs.Sending.{Sent};
ghost use Rattle.system_transfer.specs.Receiving.{Received};
ghost use Rattle.program_filter.specs.Answered.{Answered};

use std::marker::PhantomData;
use std::time::Clock;
use system_transfer::Transfer;

// A program that prints one text for its whole input: the text, and the length of the buffer that it is put in.
pub trait Filter {
    ghost text: { List ℕ → List ℕ };

    ghost room: { ℕ };

    // Puts the text at the start of the buffer, and answers its length.
    fn put(out: &mut [u8], bytes: &[u8]) -> usize
        requires { length out.old ≡ room }
        ensures within { result ≤ length out.new }
        ensures is { take result out.new ≡ text bytes.now };
}

// A filter that says as well how long the buffer is that its input is read into, which is one byte more than an input may have.
pub trait MeasuredFilter {
    ghost text: { List ℕ → List ℕ };

    ghost space: { ℕ };

    ghost room: { ℕ };

    // Puts the text at the start of the buffer, and answers its length.
    fn put(out: &mut [u8], bytes: &[u8]) -> usize
        requires { length out.old ≡ room }
        ensures within { result ≤ length out.new }
        ensures is { take result out.new ≡ text bytes.now };
}

// The program, with buffers of so many bytes for its input and its output.
pub fn run<P: Filter, R: Input + Print + Eprint + Clock, const IN: usize, const OUT: usize>(
    rt: &R,
) -> bool
    requires { (IN < 2 ^ 63) × (OUT < 2 ^ 63) × (OUT ≡ P.room) }
    ensures { (input : List ℕ) × Answered P.text input result }
{
    run_measured::<MeasuredBy<P, IN>, R, IN, OUT>(rt)
}

// A filter, measured by a length that is given.
struct MeasuredBy<P, const IN: usize> {
    of: PhantomData<P>,
}

impl<P: Filter, const IN: usize> MeasuredFilter for MeasuredBy<P, IN> {
    ghost text = { P.text };

    ghost space = { IN };

    ghost room = { P.room };

    fn put(out: &mut [u8], bytes: &[u8]) -> usize {
        P::put(out, bytes)
    }
}

// The program of a measured filter, with buffers of the lengths that it says.
pub fn run_measured<
    P: MeasuredFilter,
    R: Input + Print + Eprint + Clock,
    const IN: usize,
    const OUT: usize,
>(rt: &R) -> bool
    requires { (IN < 2 ^ 63) × (OUT < 2 ^ 63) × (IN ≡ P.space) × (OUT ≡ P.room) }
    ensures { (input : List ℕ) × (length input ≡ P.space) × Answered P.text input result }
{
    let mut input = [0; IN];
    let mut output = [0; OUT];
    answer::<P, R>(rt, &mut input, &mut output)
}

// Whether the input came without a failure and all of the program's text was taken. After a read that failed nothing is printed.
fn answer<P: MeasuredFilter, R: Input + Print + Eprint + Clock>(
    rt: &R,
    input: &mut [u8],
    output: &mut [u8],
) -> bool
    requires { length output.old ≡ P.room }
    ensures { Answered P.text input.new result }
{
    let got = read(rt, input);
    let n = got.at;
    if got.failed {
        return false;
    }
    let length = P::put(output, &input[..n]);
    print(rt, output, length)
}

// One byte more than an input of words or records may have.
pub fn input_buffer() -> [u8; 65537]
    ensures { 65537 ≡ length result }
{
    [0; 65537]
}

// Standard input.
pub fn read<R: Input + Eprint + Clock>(rt: &R, input: &mut [u8]) -> Transfer
    ensures { Received input.new result }
{
    let mut from = rt.reader();
    system_streams::read(&mut from, rt, b"standard input", input)
}

// The first n bytes.
pub fn print<R: Print + Eprint + Clock>(rt: &R, text: &[u8], n: usize) -> bool
    requires { n ≤ length text.now }
    ensures { Sent (take n text.now) result }
{
    system_streams::print(rt, &text[..n])
}
