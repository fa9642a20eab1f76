// The console's commands for trays (SPEC, "Console").
#![tactic(auto)]

use console_replies::{Line, Reply, Value};
use text_words::Numbers;
use tray::{Answer, Outcome, Session};

// The answer to a command; its arguments begin at `from`, and the numbers of a hand-out are written to the front of `space`.
pub fn answer(s: Session, c: usize, line: &[u8], from: usize, space: &mut [i32]) -> Reply<Session> {
    if c == text_words::TRAY {
        return take(s, line, from);
    }
    numbered(s, c, text_words::numbers_from(line, from), space)
}

fn replied(o: Outcome) -> Reply<Session> {
    Reply {
        session: o.session,
        line: answered(o.answer),
    }
}

fn answered(a: Answer) -> Line {
    match a {
        Answer::Taken(n) => Line::Good(Value::Unsigned(n as u64)),
        Answer::Handed(count, ended) => Line::Good(console_replies::of_masked(count, ended)),
        Answer::Done => Line::Good(Value::Nothing),
        Answer::Refused(f) => Line::Refused(f.number()),
    }
}

// `tray K BYTE AHEX BHEX`.
fn take(s: Session, line: &[u8], from: usize) -> Reply<Session> {
    let n = text_words::numbers_before(line, from, 2);
    if !n.good {
        return Reply::stays(s, Line::Bad);
    }
    let Some(k) = console_arguments::natural_of(n.values[0]) else {
        return Reply::stays(s, Line::Bad);
    };
    let Some(byte) = console_arguments::natural_of(n.values[1]) else {
        return Reply::stays(s, Line::Bad);
    };
    let mut a = io::large_buffer();
    let mut b = io::large_buffer();
    let Some((i, j)) = parts_of(line, n.end, &mut a, &mut b) else {
        return Reply::stays(s, Line::Bad);
    };
    let Some(a) = a.get(..i) else {
        return Reply::stays(s, Line::Bad);
    };
    let Some(b) = b.get(..j) else {
        return Reply::stays(s, Line::Bad);
    };
    replied(tray::take(s, k, byte, a, b))
}

fn parts_of<'a>(
    line: &[u8],
    at: usize,
    a: &'a mut [u8],
    b: &'a mut [u8],
) -> Option<(usize, usize)> {
    let first = text_words::bytes_at(line, at, a);
    let second = text_words::bytes_at(line, first.next, b);
    if second.next < line.len() {
        return None;
    }
    match (first.hex, second.hex) {
        (Some(i), Some(j)) => Some((i, j)),
        _ => None,
    }
}

// The commands with a number, or with none.
fn numbered(s: Session, c: usize, n: Numbers, space: &mut [i32]) -> Reply<Session> {
    if !n.good {
        return Reply::stays(s, Line::Bad);
    }
    match c {
        text_words::TRAY_HAND => hand(s, n, space),
        _ => alone(s, c, n),
    }
}

// `tray-hand LENGTH`.
fn hand(s: Session, n: Numbers, space: &mut [i32]) -> Reply<Session> {
    if n.count != 1 {
        return Reply::stays(s, Line::Bad);
    }
    let Some(k) = text_words::lent(n.values[0]) else {
        return Reply::stays(s, Line::Bad);
    };
    match space.get_mut(..k) {
        Some(lent) => replied(tray::hand_out(s, lent)),
        None => Reply::stays(s, Line::Bad),
    }
}

// `tray-rewind`, `tray-clear`, without a number.
fn alone(s: Session, c: usize, n: Numbers) -> Reply<Session> {
    if n.count != 0 {
        return Reply::stays(s, Line::Bad);
    }
    match c {
        text_words::TRAY_REWIND => replied(tray::rewind(s)),
        _ => replied(tray::clear(s)),
    }
}
