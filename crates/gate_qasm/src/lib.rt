// Words as lines of OpenQASM 2.0, written and read: document 02, Ticket 12.
#![tactic(auto)]

mod letters;
mod lines;

ghost use Rattle.std.specs.Prelude.{◌≡◌};
ghost use Rattle.gate_qasm.specs.Calls.{number_of, Writes, Reads};

use letters::put_word;
use lines::{is_text, lines_of, put_lines};

// Why nothing was written; the numbers are `number_of` of specs/Calls.
#[derive(Clone, Copy)]
pub enum Refusal {
    NotALetter,
    NotALine,
    NoRoom,
}

impl Refusal {
    pub fn number(self) -> u8
        ensures { result ≡ number_of self }
    {
        match self {
            Refusal::NotALetter => refusals::NOT_A_LETTER,
            Refusal::NotALine => refusals::NOT_A_LINE,
            Refusal::NoRoom => refusals::NO_ROOM,
        }
    }
}

// The text of a word.
pub fn write(word: &[u8], text: &mut [u8]) -> Result<usize, Refusal>
    ensures { Writes word.now text.old text.new result }
{
    let letters = gate_alphabet::are_letters(word);
    let n = lines_of(word);
    let fits = n <= text.len() / 8;
    if !letters {
        return Err(Refusal::NotALetter);
    }
    if !fits {
        return Err(Refusal::NoRoom);
    }
    put_lines(word, text);
    let size = 8 * n;
    Ok(size)
}

// The word of a text.
pub fn read(text: &[u8], word: &mut [u8]) -> Result<usize, Refusal>
    ensures { Reads text.now word.old word.new result }
{
    if !is_text(text) {
        return Err(Refusal::NotALine);
    }
    let whole = put_word(text, word);
    if !whole {
        return Err(Refusal::NoRoom);
    }
    Ok(text.len() / 8)
}
