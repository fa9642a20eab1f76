// Where the list program's output stands, from its start to its end: SPEC, "List program".
#![tactic(auto)]

ghost use Rattle.std.specs.Prelude.{◌≡◌};
ghost use Rattle.list_input.specs.Load.{load_of};
ghost use Rattle.list_states.specs.State.{state_of, done, is_done as doneAt, begin};

use integers_wide::Size;
use list_input::Input;
use record::Refusal;
use session_stages::Session;

// Where the output stands: one line alone; solutions to come, with the number of those before them; the line at the end; nothing more.
#[derive(Clone, Copy)]
pub enum Output {
    TooLong,
    Refusal(Refusal, usize),
    List(Session, Size),
    Last(Size),
    Done,
}

// A piece of the output, and where it stands after it.
#[derive(Clone, Copy)]
pub struct Piece {
    pub next: Output,
    pub length: usize,
}

// Before the first piece of the output for an input.
pub fn start(bytes: &[u8]) -> Output
    ensures { state_of result ≡ begin (load_of bytes.now) }
{
    let input = list_input::load(bytes);
    match input {
        Input::TooLong => Output::TooLong,
        Input::Refused(f, at) => Output::Refusal(f, at),
        Input::Job(s) => Output::List(s, Size { hi: 0, lo: 0 }),
    }
}

// Nothing more comes after a piece of this length.
pub fn last(length: usize) -> Piece
    ensures { (state_of result.next ≡ done) × (result.length ≡ length) }
{
    Piece {
        next: Output::Done,
        length,
    }
}

// Whether nothing more comes.
pub fn is_done(o: Output) -> bool
    ensures { result ≡ doneAt (state_of o) }
{
    match o {
        Output::TooLong => false,
        Output::Refusal(_, _) => false,
        Output::List(_, _) => false,
        Output::Last(_) => false,
        Output::Done => true,
    }
}
