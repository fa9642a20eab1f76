// A word in an array: its syllables, and how many T it has.
ghost use Rattle.std.specs.Prelude.{◌≡◌, ◌+◌, ◌≤◌};
ghost use Rattle.gate_theory.specs.Word.{syllable};
ghost use Rattle.gates.specs.Written.{written, tally, Adds};

use gate_clifford::{Word, push};

// HT, or SHT.
pub(crate) fn syllable(w: Word, bare: bool) -> Word
    requires { w.len + 3 ≤ 128 }
    ensures { Adds w (syllable bare) result }
{
    if bare {
        return push(push(w, b'H'), b'T');
    }
    push(push(push(w, b'S'), b'H'), b'T')
}

// How many T a word has.
pub fn ts(w: Word) -> usize
    requires { w.len ≤ 128 }
    ensures { result ≡ tally (written w) }
{
    w.letters[..w.len].iter().filter(|b| **b == b'T').count()
}
