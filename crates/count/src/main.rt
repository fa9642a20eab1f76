// The list program without the lines of the solutions, so that the search can be timed alone.
#![tactic(auto)]

fn main(rt: HostRuntime) {
    if program_usage::told(
        &rt,
        &mut rt.stderr(),
        b"usage: count < JOB\nThe number of points of a job.\n",
    ) {
        return;
    }
    let mut input = list_printing::input_buffer();
    let mut from = rt.reader();
    let got = system_streams::read(&mut from, &rt, b"standard input", &mut input);
    let n = got.at;
    if !got.failed {
        list_printing::print_count(&rt, &input[..n]);
    }
}
