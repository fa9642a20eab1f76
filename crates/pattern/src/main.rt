// The pattern program: a job on standard input, its shortest pattern on standard output. SPEC, "Pattern program".
#![tactic(auto)]

ghost use Rattle.std.specs.Prelude.{◌≡◌, length};
ghost use Rattle.system_transfer.specs.Sending.{Sent};
ghost use Rattle.program_filter.specs.Answered.{Answered};
ghost use Rattle.pattern_text.specs.Pattern.{output_of};

use std::time::Clock;

fn main(rt: HostRuntime) {
    if program_usage::told(
        &rt,
        &mut rt.stderr(),
        b"usage: pattern < JOB\nThe shortest pattern of a job, one fact a line.\n",
    ) {
        return;
    }
    let mut input = program_filter::input_buffer();
    answer(&rt, &mut input);
}

// Whether the input came without a failure and all of its output was taken. After a read that failed nothing is printed.
fn answer<R: Input + Print + Eprint + Clock>(rt: &R, input: &mut [u8]) -> bool
    ensures { Answered output_of input.new result }
{
    let got = program_filter::read(rt, input);
    let n = got.at;
    if got.failed {
        return false;
    }
    say(rt, &input[..n])
}

fn say<R: Print + Eprint + Clock>(rt: &R, bytes: &[u8]) -> bool
    ensures { Sent (output_of bytes.now) result }
{
    let mut out = output_buffer();
    let n = pattern_text::put(&mut out, bytes);
    program_filter::print(rt, &out, n)
}

fn output_buffer() -> [u8; 363]
    ensures { 363 ≡ length result }
{
    [0; 363]
}
