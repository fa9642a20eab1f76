// The ticks of one word.
ghost use Rattle.std.specs.Prelude.{◌≡◌, true, ◌≤◌, length};
ghost use Rattle.gate_alphabet.specs.Letters.{letter_of, letters_of};
ghost use Rattle.gate_tariff.specs.Tariff.{top_length, price, in_range, sum_of, ticks_of};

use crate::{Refusal, Tariff};

const TOP_PRICE: u32 = 1000000;

const TOP_LENGTH: usize = 65536;

// Whether no price is above the top.
pub(crate) fn in_range(tariff: Tariff) -> bool
    ensures { result ≡ in_range tariff }
{
    (tariff.h <= TOP_PRICE)
        & (tariff.s <= TOP_PRICE)
        & (tariff.t <= TOP_PRICE)
        & (tariff.w <= TOP_PRICE)
}

// The price of a letter.
fn price(tariff: Tariff, b: u8) -> u32
    ensures { result ≡ price tariff (letter_of b) }
{
    match b {
        b'H' => tariff.h,
        b'S' => tariff.s,
        b'T' => tariff.t,
        _ => tariff.w,
    }
}

// The prices of a word's letters, added up.
fn sum(tariff: Tariff, word: &[u8]) -> u64
    requires { (in_range tariff ≡ true) × (length word.now ≤ top_length) }
    ensures { result ≡ sum_of tariff (letters_of word.now) }
{
    let mut n = 0;
    for b in word {
        n += u64::from(price(tariff, *b));
    }
    n
}

// The ticks of a word: the sum of its prices, rounded up once.
#[tactic(auto, unfolding(crate::specs::Tariff::ticks_of))]
pub(crate) fn word_ticks(tariff: Tariff, word: &[u8]) -> Result<u64, Refusal>
    requires { in_range tariff ≡ true }
    ensures { result ≡ ticks_of tariff word.now }
{
    let short = word.len() <= TOP_LENGTH;
    let letters = gate_alphabet::are_letters(word);
    if !short {
        return Err(Refusal::OutOfRange);
    }
    if !letters {
        return Err(Refusal::NotALetter);
    }
    Ok((sum(tariff, word) + 999) / 1000)
}
