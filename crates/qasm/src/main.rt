// The program `qasm`: a word on standard input, its file of OpenQASM 2.0 on standard output. SPEC, "OpenQASM programs".
#![tactic(auto)]

ghost use Rattle.qasm_file.specs.File.{file_of};

use program_filter::MeasuredFilter;

struct Qasm;

impl MeasuredFilter for Qasm {
    ghost text = { file_of };

    ghost space = { 65537 };

    ghost room = { 524335 };

    fn put(out: &mut [u8], bytes: &[u8]) -> usize {
        qasm_file::put_file(out, bytes)
    }
}

fn main(rt: HostRuntime) {
    if program_usage::told(
        &rt,
        &mut rt.stderr(),
        b"usage: qasm < WORD > FILE\nA word, or what pattern printed, as a file of OpenQASM 2.0.\n",
    ) {
        return;
    }
    program_filter::run_measured::<Qasm, _, 65537, 524335>(&rt);
}
