// Texts that several programs print, put after a place of a lent slice (specs/Puts).
#![tactic(auto)]

ghost use Rattle.std.specs.Prelude.{◌≡◌, ◌+◌, length};
ghost use Rattle.text.specs.Written.{written, after};
ghost use Rattle.text_puts.specs.Puts.{Puts};
ghost use Rattle.text_puts.specs.Texts.{number_texts, refusal_texts, shown};

// A name and a number.
pub fn put_number(out: &mut [u8], at: usize, name: &[u8], n: u64) -> usize
    ensures { Puts (out.old, at) (number_texts name.now n) (out.new, result) (length name.now + 22) }
{
    let a = text::put_bytes(out, at, name);
    let b = text::put_byte(out, a, b' ');
    let c = text::put_unsigned(out, b, n);
    text::put_byte(out, c, b'\n')
}

// `refused R at P`.
pub fn put_refusal(out: &mut [u8], at: usize, number: u8, place: usize) -> usize
    ensures { Puts (out.old, at) (refusal_texts number place) (out.new, result) 53 }
{
    let a = text::put_bytes(out, at, b"refused ");
    let b = text::put_unsigned(out, a, number as u64);
    put_number(out, b, b" at", place as u64)
}

// A word, or `-` for the empty one.
pub fn put_word(out: &mut [u8], at: usize, word: &[u8]) -> usize
    ensures { (out.new ≡ written out.old at (shown word.now)) × (result ≡ after out.old at (shown word.now)) }
{
    if word.len() == 0 {
        text::put_byte(out, at, b'-')
    } else {
        text::put_bytes(out, at, word)
    }
}
