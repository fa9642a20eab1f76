// The program `unqasm`: a file of OpenQASM 2.0 on standard input, its word on standard output. SPEC, "OpenQASM programs".
#![tactic(auto)]

ghost use Rattle.qasm_file.specs.File.{back_of};

use program_filter::MeasuredFilter;

struct Unqasm;

impl MeasuredFilter for Unqasm {
    ghost text = { back_of };

    ghost space = { 524336 };

    ghost room = { 65537 };

    fn put(out: &mut [u8], bytes: &[u8]) -> usize {
        qasm_file::put_back(out, bytes)
    }
}

fn main(rt: HostRuntime) {
    if program_usage::told(
        &rt,
        &mut rt.stderr(),
        b"usage: unqasm < FILE\nThe word of a file of OpenQASM 2.0.\n",
    ) {
        return;
    }
    program_filter::run_measured::<Unqasm, _, 524336, 65537>(&rt);
}
