// The part program: SPEC, "List program".
#![tactic(auto)]

ghost use Rattle.std.specs.Prelude.{◌≡◌, length};
ghost use Rattle.system_transfer.specs.Sending.{Sent};
ghost use Rattle.walk_list.specs.Walk.{full};
ghost use Rattle.session_model.specs.Since.{full_of};
ghost use Rattle.session_stages.specs.World.{world};
ghost use Rattle.session_stages.specs.Session.{meaning, scale_of};
ghost use Rattle.list_states.specs.State.{state_of};
ghost use Rattle.list_output.specs.Pieces.{piece_of};
ghost use Rattle.list_segment.specs.Part.{part_lines};
ghost use Rattle.list_segment.specs.Printed.{Printed};
ghost use Rattle.part.specs.Part.{part_of};
ghost use Rattle.part.specs.Answered.{Answered};

use list_input::Input;
use list_output::Output;
use operator::Operator;
use region::Job;
use session::{Session, Stage};
use std::env::Env;
use std::io;
use std::time::Clock;

fn main(rt: HostRuntime) {
    let r = range(&rt);
    match r {
        Some((lo, hi)) => {
            let mut input = list_printing::input_buffer();
            answer(&rt, &mut input, lo, hi);
        }
        None => program_usage::say(
            &rt,
            &mut rt.stderr(),
            b"usage: part LO HI < JOB\nThe points of a job with a from LO to HI, one a line.\n",
        ),
    }
}

fn range<R: Env>(rt: &R) -> Option<(i32, i32)> {
    if program_usage::has_argument(rt, 3) {
        return None;
    }
    let l = argument(rt, 1);
    let h = argument(rt, 2);
    if let Some(lo) = l {
        if let Some(hi) = h {
            return Some((lo, hi));
        }
    }
    None
}

// An argument that is missing or has more than 32 bytes is no number.
fn argument<R: Env>(rt: &R, i: usize) -> Option<i32> {
    let mut word = [0u8; 32];
    match rt.arg(i, &mut word) {
        Ok(n) => text_numeral::read(&word[..n]),
        Err(_) => text_numeral::read(&[]),
    }
}

// Whether the input came without a failure and all of its part was taken. After a read that failed nothing is printed.
fn answer<R: io::Input + Print + Eprint + Clock>(rt: &R, input: &mut [u8], lo: i32, hi: i32) -> bool
    ensures { Answered lo hi input.new result }
{
    let mut from = rt.reader();
    let got = system_streams::read(&mut from, rt, b"standard input", input);
    let n = got.at;
    if got.failed {
        return false;
    }
    print(rt, &input[..n], lo, hi)
}

fn print<R: Print + Eprint + Clock>(rt: &R, bytes: &[u8], lo: i32, hi: i32) -> bool
    ensures { Printed (part_of lo hi bytes.now) result }
{
    let input = list_input::load(bytes);
    match input {
        Input::TooLong => line(rt, Output::TooLong),
        Input::Refused(f, at) => line(rt, Output::Refusal(f, at)),
        Input::Job(s) => lines(rt, s, lo, hi),
    }
}

// The one line for an input that is no job, as the list program prints it.
fn line<R: Print + Eprint + Clock>(rt: &R, o: Output) -> bool
    ensures { Sent (piece_of 126 (state_of o)).text result }
{
    let mut space = line_buffer();
    let p = list_output::next(o, &mut space);
    let n = p.length;
    system_streams::print(rt, &space[..n])
}

fn line_buffer() -> [u8; 126]
    ensures { 126 ≡ length result }
{
    [0; 126]
}

fn lines<R: Print + Eprint + Clock>(rt: &R, s: Session, lo: i32, hi: i32) -> bool
    ensures { Printed (part_lines (scale_of (meaning s)) lo hi (full_of world (meaning s))) result }
{
    let g = s.stage;
    match g {
        Stage::Early(_) => true,
        Stage::Walking(c) => of_job(rt, c.job, lo, hi),
    }
}

// For a job that lists nothing the question is quicker than a walk.
fn of_job<R: Print + Eprint + Clock>(rt: &R, job: Job, lo: i32, hi: i32) -> bool
    ensures { Printed (part_lines job.k lo hi (full job)) result }
{
    if !question::has_solution(job, Operator::IDENTITY) {
        return true;
    }
    list_segment::print(rt, job, lo, hi)
}
