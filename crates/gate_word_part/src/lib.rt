// The part that `gate_words_lent::words` hands back, copied to the front of a third lent slice: SPEC, "Gate words".
// A caller has plain slices and numbers, and needs no walk.
#![tactic(auto)]

ghost use Rattle.std.specs.Prelude.{◌≡◌};
ghost use Rattle.text.specs.Written.{written, after};
ghost use Rattle.gate_word_part.specs.Copies.{Copies};

use ring::Point;

// The number, 0 if there are words, and how many bytes were copied.
#[derive(Clone, Copy)]
pub struct Copied {
    pub number: u8,
    pub len: usize,
}

// The number, and the part at the front of the slice.
fn put<'a>(number: u8, word: &'a [u8], part: &'a mut [u8]) -> Copied
    ensures { (result.number ≡ number) × (result.len ≡ after part.old 0 word.now) × (part.new ≡ written part.old 0 word.now) }
{
    let len = text::put_bytes(part, 0, word);
    Copied { number, len }
}

// The words of U and of TUT† at the start of the two slices, and the one with fewer T at the start of the third, if it fits there.
pub fn word_part<'a>(
    k: u8,
    u: Point,
    t: Point,
    first: &'a mut [u8],
    second: &'a mut [u8],
    part: &'a mut [u8],
) -> Copied
    ensures { Copies k u t first.old second.old part.old first.new second.new part.new result }
{
    let o = gate_words_lent::words(k, u, t, first, second);
    put(o.number, o.word, part)
}
