// What a whole input comes to: SPEC, "List program".
#![tactic(auto)]

ghost use Rattle.std.specs.Prelude.{◌≡◌, length};
ghost use Rattle.session_stages.specs.Session.{meaning, fresh};
ghost use Rattle.list_input.specs.Load.{loaded_of, load_of};
ghost use Rattle.list_input.specs.Load.{records as records_of, finished as finishedAt};

use record::Refusal;
use session::{Answer, Session, Stage};

// A session whose job is whole, or a refusal with its place, or an input of more than 65,536 bytes.
#[derive(Clone, Copy)]
pub enum Input {
    Job(Session),
    Refused(Refusal, usize),
    TooLong,
}

// What the records of an input come to.
pub fn load(bytes: &[u8]) -> Input
    ensures { loaded_of result ≡ load_of bytes.now }
{
    if 65536 < bytes.len() {
        return Input::TooLong;
    }
    records(bytes)
}

// Records until the bytes run out or one is refused.
fn records(bytes: &[u8]) -> Input
    ensures { loaded_of result ≡ records_of (length bytes.now) (meaning fresh) 0 bytes.now }
{
    let mut s = session::start();
    let mut at = 0;
    // A while: the step is not one, it is past the record.
    while at < bytes.len() {
        let o = session::read(s, &bytes[at..]);
        let a = o.answer;
        match a {
            Answer::Taken(n) => {
                at += n;
            }
            Answer::Refused(f) => {
                return Input::Refused(f, at);
            }
            Answer::Handed(_, _) => {
                return finished(s, at);
            }
            Answer::Done => {
                return finished(s, at);
            }
            Answer::Says(_) => {
                return finished(s, at);
            }
            Answer::Least(_, _, _) => {
                return finished(s, at);
            }
        }
        s = o.session;
    }
    finished(s, at)
}

// The end of the input: refused 9 while scale, A and B are not all there.
fn finished(s: Session, at: usize) -> Input
    ensures { loaded_of result ≡ finishedAt (meaning s) at }
{
    let g = s.stage;
    match g {
        Stage::Early(_) => Input::Refused(Refusal::NoJob, at),
        Stage::Walking(_) => Input::Job(s),
    }
}
