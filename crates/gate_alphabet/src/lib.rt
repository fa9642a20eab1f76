// Words as bytes: the letters H, S, T and W of SPEC, "Gate words".
#![tactic(auto)]

ghost use Rattle.std.specs.Prelude.{◌≡◌};
ghost use Rattle.gate_alphabet.specs.Letters.{is_letter, are_letters};

// Whether a word is of the four letters only.
pub fn are_letters(word: &[u8]) -> bool
    ensures { result ≡ are_letters word.now }
{
    word.iter().all(|b| is_letter(*b))
}

// Each comparison is made: a processor does not foresee the letters of a word, and a branch for each costs more.
#[tactic(auto, unfolding(crate::specs::Letters::is_letter, crate::specs::Letters::letter_of))]
fn is_letter(b: u8) -> bool
    ensures { result ≡ is_letter b }
{
    (b == b'H') | (b == b'S') | (b == b'T') | (b == b'W')
}
