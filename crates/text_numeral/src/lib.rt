// A word that is a whole number of 32 bits in decimal, as an argument of a program: SPEC, "List program".
#![tactic(auto)]

ghost use Rattle.std.specs.Prelude.{◌≡◌, cond};
ghost use Rattle.text_numeral.specs.Numeral.{numeral_of, narrowed, word_number, none};

use text_scan::Number;

// The number that a whole word spells: an optional '-' and digits.
pub fn read(word: &[u8]) -> Option<i32>
    ensures { numeral_of result ≡ word_number word.now }
{
    let n = text_scan::number_at(word, 0);
    match n {
        Number::Value(z, end) => {
            if end == word.len() {
                return narrow(z);
            }
            None
        }
        Number::Bad => None,
    }
}

fn narrow(z: i64) -> Option<i32>
    ensures { numeral_of result ≡ narrowed z }
{
    if z < -2147483648 {
        return None;
    }
    if 2147483647 < z {
        return None;
    }
    Some(z as i32)
}
