// The list program: SPEC, "List program".
#![tactic(auto)]

ghost use Rattle.list.specs.Answered.{Answered};

use std::time::Clock;

fn main(rt: HostRuntime) {
    if program_usage::told(
        &rt,
        &mut rt.stderr(),
        b"usage: list < JOB\nThe points of a job, one a line, and their number.\n",
    ) {
        return;
    }
    let mut input = list_printing::input_buffer();
    answer(&rt, &mut input);
}

// Whether the input came without a failure and all of its output was taken. After a read that failed nothing is printed.
fn answer<R: Input + Print + Eprint + Clock>(rt: &R, input: &mut [u8]) -> bool
    ensures { Answered input.new result }
{
    let mut from = rt.reader();
    let got = system_streams::read(&mut from, rt, b"standard input", input);
    let n = got.at;
    if got.failed {
        return false;
    }
    list_printing::print_list(rt, &input[..n])
}
