// The word of a text.
ghost use Rattle.std.specs.Prelude.{◌≡◌, ◌/◌, leb, length};
ghost use Rattle.text.specs.Written.{written};
ghost use Rattle.gate_alphabet.specs.Letters.{byte, bytes};
ghost use Rattle.gate_qasm.specs.Text.{gate_of, word_of};

// The letter of a line that begins with a byte.
fn letter(b: u8) -> u8
    ensures { result ≡ byte (gate_of b) }
{
    match b {
        b'h' => b'H',
        b's' => b'S',
        _ => b'T',
    }
}

// The letters of the lines, from the last line to the first, and whether they fit. Where they do not, no byte is written.
pub(crate) fn put_word(text: &[u8], word: &mut [u8]) -> bool
    ensures { (result ≡ leb (length text.now / 8) (length word.old)) × (word.new ≡ written word.old 0 (bytes (word_of text.now))) }
{
    let n = text.len() / 8;
    let room = word.len();
    let fits = n <= room;
    let end = if fits { n } else { 0 };
    for i in 0..end {
        let at = 8 * (n - 1 - i);
        word[i] = letter(text[at]);
    }
    fits
}
