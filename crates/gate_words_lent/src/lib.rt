// The words of U and of TUT† in the form that is asked for: one call, whose result holds the number and a part of one of the two lent slices.
// It is thin: `gate_words` does the work.
#![tactic(auto)]

ghost use Rattle.std.specs.Prelude.{◌≡◌, cond, take};
ghost use Rattle.gate_words.specs.Words.{first_after, second_after};
ghost use Rattle.gate_words_lent.specs.Ends.{Gives, ends};

use gate_words::Part;
use ring::Point;

// The number, 0 if there are words, and the word with fewer T.
#[derive(Drop)]
pub struct Outcome<'a> {
    pub number: u8,
    pub word: &'a [u8],
}

// The number of an answer, and the part that it names of one of the two slices.
fn hand_back<'a>(p: Part, first: &'a [u8], second: &'a [u8]) -> Outcome<'a>
    ensures number { result.number ≡ p.number }
    ensures word { result.word.now ≡ take p.len (cond p.second second.now first.now) }
    ensures place { result.word.ref_ptr ≡ cond p.second second.entry.ref_ptr first.entry.ref_ptr }
{
    let word = gate_words::chosen(p, first, second);
    Outcome {
        number: p.number,
        word,
    }
}

// The words of U and of TUT† at the start of the two slices, and the one with fewer T.
pub fn words<'a>(
    k: u8,
    u: Point,
    t: Point,
    first: &'a mut [u8],
    second: &'a mut [u8],
) -> Outcome<'a>
    ensures gives { Gives k u t first.entry second.entry result }
    ensures* ends { ends 𝓛 first.entry (first_after k u t first.old second.old) ∗ ends 𝓛 second.entry (second_after k u t first.old second.old) }
{
    let p = gate_words::spell_part(k, u, t, first, second);
    hand_back(p, first, second)
}
