// What the console answers, line by line (SPEC, "Console").
#![tactic(auto)]

ghost use Rattle.std.specs.Prelude.{◌≡◌, length};
ghost use Rattle.io.specs.Counts.{IsPrefixLen};

use session_tallied::Tallied;
use tray::Session;

// What is kept from line to line: the bench's session and the tray's, which their calls move on.
#[derive(Clone, Copy)]
pub struct Desk {
    pub session: Tallied,
    pub tray: Session,
}

// The desk that a line leaves, and the length of its answer.
#[derive(Clone, Copy)]
pub struct Answered {
    pub desk: Desk,
    pub length: usize,
}

// A session that has read nothing, and no tray.
pub fn start() -> Desk {
    Desk {
        session: session_tallied::start(),
        tray: tray::start(),
    }
}

// Room for the longest answer.
pub fn room() -> [u8; 131200]
    ensures { 131200 ≡ length result }
{
    [0; 131200]
}

// The answer to a line, line feed included, at the front of `out`; none for an empty line and for one that begins with #.
pub fn answer(d: Desk, line: &[u8], out: &mut [u8]) -> Answered
    ensures { IsPrefixLen result.length out.new }
{
    let a = put_answer(d, line, out);
    Answered {
        desk: a.desk,
        length: within(a.length, out),
    }
}

// A length that `out` has.
fn within(n: usize, out: &[u8]) -> usize
    ensures { IsPrefixLen result out.now }
{
    if n <= out.len() { n } else { 0 }
}

fn put_answer(d: Desk, line: &[u8], out: &mut [u8]) -> Answered {
    match line.first() {
        None | Some(b'#') => kept(d, 0),
        Some(_) => {
            let c = command_at(line);
            put_command(d, c.name, line, c.end, out)
        }
    }
}

// A desk that stays.
fn kept(d: Desk, length: usize) -> Answered {
    Answered { desk: d, length }
}

// What the first word of a line names, and where the word ends.
#[derive(Clone, Copy)]
struct Command {
    name: usize,
    end: usize,
}

fn command_at(line: &[u8]) -> Command {
    let first = text_scan::spaces_from(line, 0);
    let end = text_scan::word_end(line, first);
    let name = text_words::command_of(&line[first..end]);
    Command { name, end }
}

// By family: the commands' places are in this order.
fn put_command(d: Desk, c: usize, line: &[u8], from: usize, out: &mut [u8]) -> Answered {
    if c < text_words::TALLY {
        return put_bench(d, c, line, from, out);
    }
    if c == text_words::TALLY {
        return kept(d, console_bench::put_tally(out, d.session, line, from));
    }
    if c <= text_words::TRAY_CLEAR {
        return put_tray(d, c, line, from, out);
    }
    if c <= text_words::PUT_SHEET {
        return kept(d, console_companions::put(out, c, line, from));
    }
    kept(d, put_stateless(out, c, line, from))
}

// The numbers that a line may lend.
fn number_buffer() -> [i32; 4096]
    ensures { 4096 ≡ length result }
{
    [0; 4096]
}

fn put_bench(d: Desk, c: usize, line: &[u8], from: usize, out: &mut [u8]) -> Answered {
    let mut numbers = number_buffer();
    let r = console_bench::answer(d.session, c, line, from, &mut numbers);
    Answered {
        desk: Desk {
            session: r.session,
            ..d
        },
        length: console_replies::put(out, r.line, &numbers),
    }
}

fn put_tray(d: Desk, c: usize, line: &[u8], from: usize, out: &mut [u8]) -> Answered {
    let mut numbers = number_buffer();
    let r = console_tray::answer(d.tray, c, line, from, &mut numbers);
    Answered {
        desk: Desk {
            tray: r.session,
            ..d
        },
        length: console_replies::put(out, r.line, &numbers),
    }
}

fn put_stateless(out: &mut [u8], c: usize, line: &[u8], from: usize) -> usize {
    let mut numbers = number_buffer();
    let l = console_stateless::answer(c, line, from, &mut numbers);
    console_replies::put(out, l, &numbers)
}
