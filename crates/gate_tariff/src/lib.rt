// What words cost by a tariff, one word or a tray of them: document 02, Tickets 8 and 13.
#![tactic(auto)]

mod price;
mod tray_words;

ghost use Rattle.std.specs.Prelude.{◌≡◌};
ghost use Rattle.gate_tariff.specs.Tariff.{number_of, Small, answered, cost_of};
ghost use Rattle.gate_tariff.specs.Tray.{tray_of};

use price::{in_range, word_ticks};
use tray_words::{size, total};

// The prices of the letters, in thousandths of a tick.
#[derive(Clone, Copy)]
pub struct Tariff {
    pub h: u32,
    pub s: u32,
    pub t: u32,
    pub w: u32,
}

// Why there is no cost; the numbers are `number_of` of specs/Tariff.
#[derive(Clone, Copy)]
pub enum Refusal {
    OutOfRange,
    NotALetter,
    NotATray,
}

impl Refusal {
    pub fn number(self) -> u8
        ensures { result ≡ number_of self }
    {
        match self {
            Refusal::OutOfRange => refusals::OUT_OF_RANGE,
            Refusal::NotALetter => refusals::NOT_A_LETTER,
            Refusal::NotATray => refusals::NOT_A_TRAY,
        }
    }
}

// What a number of ticks answers, of a memory.
fn answered(t: Result<u64, Refusal>, memory: u32) -> Result<(u32, bool), Refusal>
    requires { Small t }
    ensures { result ≡ answered memory t }
{
    match t {
        Ok(n) => {
            let cost = n as u32;
            Ok((cost, n <= u64::from(memory)))
        }
        Err(why) => Err(why),
    }
}

// What a word costs, and whether it fits a memory.
pub fn cost(tariff: Tariff, word: &[u8], memory: u32) -> Result<(u32, bool), Refusal>
    ensures { result ≡ cost_of tariff word.now memory }
{
    if !in_range(tariff) {
        return Err(Refusal::OutOfRange);
    }
    answered(word_ticks(tariff, word), memory)
}

// What the words of a tray cost together, each closed by a line feed, and whether they fit a memory together.
#[tactic(auto, using(crate::proofs::Words::tray_refused, crate::proofs::Words::tray_answered, crate::proofs::Words::tray_price))]
pub fn tray_cost(tariff: Tariff, words: &[u8], memory: u32) -> Result<(u32, bool), Refusal>
    ensures { result ≡ tray_of tariff words.now memory }
{
    let n = size(words);
    let priced = in_range(tariff);
    if n == 0 {
        return Err(Refusal::NotATray);
    }
    if !priced {
        return Err(Refusal::OutOfRange);
    }
    answered(total(tariff, words, n), memory)
}
