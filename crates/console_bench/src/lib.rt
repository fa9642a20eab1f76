// The console's commands for the bench's session (SPEC, "Console").
#![tactic(auto)]

use console_replies::{Line, Reply, Value};
use record::Refusal;
use session::{Answer, Stage};
use session_tallied::{Outcome, Tallied};
use text_words::Numbers;

// The answer to a command but `tally`; its arguments begin at `from`, and the numbers of a hand-out are written to the front of `space`.
pub fn answer(s: Tallied, c: usize, line: &[u8], from: usize, space: &mut [i32]) -> Reply<Tallied> {
    if c == text_words::READ {
        return read(s, line, from);
    }
    numbered(s, c, text_words::numbers_from(line, from), space)
}

fn replied(o: Outcome) -> Reply<Tallied> {
    Reply {
        session: o.session,
        line: answered(o.answer),
    }
}

fn answered(a: Answer) -> Line {
    match a {
        Answer::Taken(n) => Line::Good(Value::Unsigned(n as u64)),
        Answer::Says(yes) => Line::Good(Value::Says(yes)),
        Answer::Refused(f) => Line::Refused(f.number()),
        Answer::Done => Line::Good(Value::Nothing),
        Answer::Least(k, u, t) => Line::Good(console_replies::of_pattern(k, u, t)),
        Answer::Handed(count, ended) => Line::Good(console_replies::of_points(count, ended)),
    }
}

// `read HEX`; with no word after it a reading of no bytes.
fn read(s: Tallied, line: &[u8], from: usize) -> Reply<Tallied> {
    let mut bytes = io::large_buffer();
    let first = text_scan::spaces_from(line, from);
    let Some(n) = text_words::last_bytes(line, first, &mut bytes) else {
        return Reply::stays(s, Line::Bad);
    };
    match bytes.get(..n) {
        Some(record) => replied(session_held::read(s, record)),
        None => Reply::stays(s, Line::Bad),
    }
}

// The commands with numbers, or with none.
fn numbered(s: Tallied, c: usize, n: Numbers, space: &mut [i32]) -> Reply<Tallied> {
    if !n.good {
        return Reply::stays(s, Line::Bad);
    }
    match c {
        text_words::HAND => hand(s, n, space),
        text_words::IMAGE => Reply::stays(s, image(s, n)),
        _ => alone(s, c, n),
    }
}

// `hand LENGTH`.
fn hand(s: Tallied, n: Numbers, space: &mut [i32]) -> Reply<Tallied> {
    if n.count != 1 {
        return Reply::stays(s, Line::Bad);
    }
    let Some(k) = text_words::lent(n.values[0]) else {
        return Reply::stays(s, Line::Bad);
    };
    match space.get_mut(..k) {
        Some(lent) => replied(session_held::hand_out(s, lent)),
        None => Reply::stays(s, Line::Bad),
    }
}

// `rewind`, `clear`, `plain`, `shortest`, `propose`, without a number.
fn alone(s: Tallied, c: usize, n: Numbers) -> Reply<Tallied> {
    if n.count != 0 {
        return Reply::stays(s, Line::Bad);
    }
    match c {
        text_words::REWIND => replied(session_held::rewind(s)),
        text_words::CLEAR => replied(session_held::clear(s)),
        text_words::PLAIN => Reply::stays(s, answered(session_held::has_solution(s))),
        text_words::SHORTEST => Reply::stays(s, answered(session_held::shortest(s))),
        _ => Reply::stays(s, propose(s)),
    }
}

// The reduction's operator for the session's job.
fn propose(s: Tallied) -> Line {
    match s.session.stage {
        Stage::Walking(c) => Line::Good(console_replies::of_operator(question::propose(c.job))),
        _ => Line::Refused(Refusal::NoJob.number()),
    }
}

// `image A B C D`.
fn image(s: Tallied, n: Numbers) -> Line {
    if n.count != 4 {
        return Line::Bad;
    }
    match console_arguments::point_at(&n.values, 0) {
        Some(w) => answered(session_held::has_image(s, w)),
        None => Line::Bad,
    }
}

// The line that answers `tally`, which has no number, and its length.
pub fn put_tally(out: &mut [u8], s: Tallied, line: &[u8], from: usize) -> usize {
    let n = text_words::numbers_from(line, from);
    if n.good && n.count == 0 {
        console_replies::put_counts(out, session_held::tally(s).counts)
    } else {
        console_replies::put_bad(out)
    }
}
