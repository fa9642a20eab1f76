// The program `show`: a job's records on standard input, the words that say them on standard output. SPEC, "Jobs in words".
#![tactic(auto)]

ghost use Rattle.std.specs.Prelude.{◌≡◌, length};
ghost use Rattle.system_transfer.specs.Sending.{Sent};
ghost use Rattle.program_filter.specs.Answered.{Answered};
ghost use Rattle.text_puts.specs.Puts.{Puts};
ghost use Rattle.list_input.specs.Load.{load_of};
ghost use Rattle.show.specs.Show.{texts_for, show_of};

use list_input::Input;
use std::io;
use std::time::Clock;

fn main(rt: HostRuntime) {
    if program_usage::told(
        &rt,
        &mut rt.stderr(),
        b"usage: show < JOB\nThe words that say a job's records, a line each.\n",
    ) {
        return;
    }
    let mut input = program_filter::input_buffer();
    answer(&rt, &mut input);
}

// Whether the input came without a failure and all of its output was taken. After a read that failed nothing is printed.
fn answer<R: io::Input + Print + Eprint + Clock>(rt: &R, input: &mut [u8]) -> bool
    ensures { Answered show_of input.new result }
{
    let got = program_filter::read(rt, input);
    let n = got.at;
    if got.failed {
        return false;
    }
    say(rt, &input[..n])
}

fn say<R: Print + Eprint + Clock>(rt: &R, bytes: &[u8]) -> bool
    ensures { Sent (show_of bytes.now) result }
{
    let mut out = output_buffer();
    let n = put(&mut out, bytes);
    program_filter::print(rt, &out, n)
}

// The lines of a job's records, or what `list` says of an input that is none.
fn put(out: &mut [u8], bytes: &[u8]) -> usize
    ensures { Puts (out.old, 0) (texts_for bytes.now (load_of bytes.now)) (out.new, result) 458752 }
{
    let i = list_input::load(bytes);
    match i {
        Input::TooLong => list_lines::put_too_long(out, 0),
        Input::Refused(f, at) => text_puts::put_refusal(out, 0, f.number(), at),
        Input::Job(_) => record_text::put(out, bytes),
    }
}

// Seven times what a job may have.
fn output_buffer() -> [u8; 458752]
    ensures { 458752 ≡ length result }
{
    [0; 458752]
}
