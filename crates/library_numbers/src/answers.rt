// The numbers of an answer, and of what a call leaves.
ghost use Rattle.std.specs.Prelude.{◌≡◌, []};
ghost use Rattle.session_stages.specs.Session.{answer_of};
ghost use Rattle.library_numbers.specs.Numbers.{told, least_of, reply_of, LeftOf};

use crate::forth::{flag, four_of, state_of};
use crate::{Four, Left, Reply};
use ring::Point;
use session_stages::Answer;
use session_tallying::Outcome;

// An answer of one number or flag.
pub fn told(kind: u8, number: u8, yes: bool, count: usize) -> Reply
    ensures { result ≡ told kind number yes count }
{
    Reply {
        kind,
        number,
        flag: flag(yes),
        scale: 0,
        count,
        u: Four::NONE,
        t: Four::NONE,
    }
}

// A pattern.
fn pattern_reply(k: u8, u: Point, t: Point) -> Reply
    ensures { result ≡ least_of k u t }
{
    Reply {
        kind: 5,
        number: 0,
        flag: 0,
        scale: k,
        count: 0,
        u: four_of(u),
        t: four_of(t),
    }
}

// The numbers of an answer: the kinds are those of the header for C.
pub fn reply_of(a: Answer) -> Reply
    ensures { result ≡ reply_of (answer_of [] a) }
{
    match a {
        Answer::Taken(n) => told(1, 0, false, n),
        Answer::Handed(n, end) => told(2, 0, end, n),
        Answer::Done => told(3, 0, false, 0),
        Answer::Says(yes) => told(4, 0, yes, 0),
        Answer::Least(k, u, t) => pattern_reply(k, u, t),
        Answer::Refused(f) => told(0, f.number(), false, 0),
    }
}

// What a call leaves: the numbers of its session and of its answer.
pub fn leaving(o: Outcome) -> Left
    ensures { LeftOf o result }
{
    Left {
        session: state_of(o.session),
        reply: reply_of(o.answer),
    }
}
