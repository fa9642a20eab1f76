// The output of the list program, printed; and the same without the solutions' lines, for timing.
#![tactic(auto)]

ghost use Rattle.std.specs.Prelude.{◌≡◌, length};
ghost use Rattle.list_printing.specs.Printed.{Printed, Listed};

mod counting;

use list_output::Output;
use std::time::Clock;

// One byte more than an input may have.
pub fn input_buffer() -> [u8; 65537]
    ensures { 65537 ≡ length result }
{
    [0; 65537]
}

// All that is printed for an input: whether all of it was taken.
pub fn print_list<R: Print + Eprint + Clock>(rt: &R, bytes: &[u8]) -> bool
    ensures { Listed bytes.now result }
{
    print_from(rt, list_output::start(bytes))
}

// The same without the lines of the solutions: their number alone, or why there is none.
pub fn print_count<R: Print + Eprint + Clock>(rt: &R, bytes: &[u8]) -> bool {
    let o = list_output::start(bytes);
    if let Output::List(s, _) = o {
        return print_from(rt, Output::Last(counting::count(s)));
    }
    print_from(rt, o)
}

// Piece after piece until nothing more comes, or not all of one was taken.
#[tactic(auto, using(crate::specs::Printed::stop))]
fn print_from<R: Print + Eprint + Clock>(rt: &R, from: Output) -> bool
    ensures { Printed from result }
{
    let mut space = output_buffer();
    let out: &mut [u8] = &mut space;
    let mut o = from;
    // A while: each piece says what comes after it.
    while !list_output::is_done(o) {
        let p = list_output::next(o, out);
        let n = p.length;
        let sent = system_streams::print(rt, &out[..n]);
        o = p.next;
        if !sent {
            return false;
        }
    }
    true
}

// Room for the lines of 1,872 points.
fn output_buffer() -> [u8; 131072]
    ensures { 131072 ≡ length result }
{
    [0; 131072]
}
