// The entries, tried by hand or by another program: an answer for each line of standard input, written before more of the input is waited for.
#![tactic(auto)]

ghost use Rattle.std.specs.Prelude.{◌≡◌, ◌≤◌, length};
ghost use Rattle.text_input_lines.specs.Fed.{Fits, Fed};

use console_commands::Desk;
use std::io::Read;
use std::time::Clock;
use text_input_lines::{Gathered, Said};

// What is kept from one read to the next, and whether to go on.
#[derive(Clone, Copy)]
struct Talk {
    desk: Desk,
    gathered: Gathered,
    going: bool,
}

// The desk that an answer leaves, and whether the answer was taken.
#[derive(Clone, Copy)]
struct Told {
    desk: Desk,
    going: bool,
}

fn main(rt: HostRuntime) {
    if program_usage::told(
        &rt,
        &mut rt.stderr(),
        b"usage: console < LINES\nAn answer for each line: a call of the library by name, its numbers and its bytes.\n",
    ) {
        return;
    }
    let mut line = line_buffer();
    let mut chunk = io::large_buffer();
    let mut out = console_commands::room();
    answer_input(&rt, &mut line, &mut chunk, &mut out);
}

// The longest line that is answered.
fn line_buffer() -> [u8; 131072]
    ensures { 131072 ≡ length result }
{
    [0; 131072]
}

// Read after read, up to more of them than any machine makes.
fn answer_input<R: Input + Print + Eprint + Clock>(
    rt: &R,
    line: &mut [u8],
    chunk: &mut [u8],
    out: &mut [u8],
) {
    let mut from = rt.reader();
    let mut t = Talk {
        desk: console_commands::start(),
        gathered: text_input_lines::empty(),
        going: true,
    };
    let mut reads: u64 = 18446744073709551615;
    while 0 < reads {
        if !t.going {
            return;
        }
        t = turn(t, &mut from, rt, line, chunk, out);
        reads -= 1;
    }
}

// One read, and the answers to the lines that it completes. A failed read is no end: what is gathered of a line is then not answered.
fn turn<F: Read, R: Print + Eprint + Clock>(
    t: Talk,
    from: &mut F,
    rt: &R,
    line: &mut [u8],
    chunk: &mut [u8],
    out: &mut [u8],
) -> Talk {
    let got = system_streams::read_some(from, rt, b"standard input", chunk);
    let n = got.at;
    if 0 < n {
        return answer_all(rt, t, line, &chunk[..n], out);
    }
    if got.failed {
        return stopped(t);
    }
    answer_last(rt, t, line, out)
}

fn stopped(t: Talk) -> Talk {
    let desk = t.desk;
    let gathered = t.gathered;
    Talk {
        desk,
        gathered,
        going: false,
    }
}

// Where the input ends: the last line needs no line feed.
fn answer_last<R: Print + Eprint + Clock>(rt: &R, t: Talk, line: &[u8], out: &mut [u8]) -> Talk {
    let g = t.gathered;
    let said = text_input_lines::last(g, line.len());
    let a = answer(rt, t.desk, said, line, out);
    let desk = a.desk;
    Talk {
        desk,
        gathered: text_input_lines::empty(),
        going: false,
    }
}

// Byte after byte; an answer that is not taken ends it.
fn answer_all<R: Print + Eprint + Clock>(
    rt: &R,
    t: Talk,
    line: &mut [u8],
    chunk: &[u8],
    out: &mut [u8],
) -> Talk
    ensures { Fed t.gathered chunk.now result.gathered result.going line.old line.new }
{
    let mut desk = t.desk;
    let mut gathered = t.gathered;
    let mut i = 0;
    while i < chunk.len() {
        let s = text_input_lines::take(gathered, line, chunk[i]);
        gathered = s.next;
        let said = s.said;
        i += 1;
        if text_input_lines::is_said(said) {
            let a = answer(rt, desk, said, line, out);
            desk = a.desk;
            if !a.going {
                return Talk {
                    desk,
                    gathered,
                    going: false,
                };
            }
        }
    }
    Talk {
        desk,
        gathered,
        going: true,
    }
}

fn answer<R: Print + Eprint + Clock>(
    rt: &R,
    d: Desk,
    said: Said,
    line: &[u8],
    out: &mut [u8],
) -> Told
    requires { Fits (length line.now) said }
{
    match said {
        Said::Line(n) => answer_line(rt, d, &line[..n], out),
        Said::TooLong => Told {
            desk: d,
            going: system_streams::print(rt, b"too long\n"),
        },
        Said::Nothing => Told {
            desk: d,
            going: true,
        },
    }
}

fn answer_line<R: Print + Eprint + Clock>(rt: &R, d: Desk, line: &[u8], out: &mut [u8]) -> Told {
    let a = console_commands::answer(d, line, out);
    let n = a.length;
    let desk = a.desk;
    Told {
        desk,
        going: system_streams::print(rt, &out[..n]),
    }
}
