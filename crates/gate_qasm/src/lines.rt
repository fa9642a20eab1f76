// Lines: those of a word, and whether a text has no others.
ghost use Rattle.std.specs.Prelude.{◌≡◌, ◌*◌, ◌/◌, ◌≤◌, length};
ghost use Rattle.text.specs.Written.{written, after};
ghost use Rattle.gate_alphabet.specs.Letters.{letter_of, letters_of};
ghost use Rattle.gate_qasm.specs.Text.{line, text_of, is_line, are_lines, is_text};

// How many lines a letter has.
#[tactic(auto, unfolding(gate_alphabet::specs::Letters::letter_of))]
fn line_of(b: u8) -> usize
    ensures { (8 * result ≡ length (line (letter_of b))) × (result ≤ 1) }
{
    match b {
        b'H' | b'S' | b'T' => 1,
        _ => 0,
    }
}

// How many lines a word has.
pub(crate) fn lines_of(word: &[u8]) -> usize
    ensures { 8 * result ≡ length (text_of (letters_of word.now)) }
{
    let mut n = 0;
    for i in (0..word.len()).rev() {
        n += line_of(word[i]);
    }
    n
}

// The line of a letter, and the place after it. The lines differ in their first byte alone, the letter in lower case, so that one branch does for all.
#[tactic(auto, unfolding(gate_alphabet::specs::Letters::letter_of))]
fn put_line(out: &mut [u8], at: usize, b: u8) -> usize
    requires { at ≤ length out.old }
    ensures { (out.new ≡ written out.old at (line (letter_of b))) × (result ≡ after out.old at (line (letter_of b))) }
{
    if (b == b'H') | (b == b'S') | (b == b'T') {
        text::put_bytes(
            out,
            at,
            &[b + 32, b' ', b'q', b'[', b'0', b']', b';', b'\n'],
        )
    } else {
        at
    }
}

// The lines of a word, from its last letter to its first.
pub(crate) fn put_lines(word: &[u8], out: &mut [u8])
    requires { length (text_of (letters_of word.now)) ≤ length out.old }
    ensures { out.new ≡ written out.old 0 (text_of (letters_of word.now)) }
{
    let mut at = 0;
    for i in (0..word.len()).rev() {
        at = put_line(out, at, word[i]);
    }
}

// Whether a part of a text is a line.
fn is_line(part: &[u8]) -> bool
    ensures { result ≡ is_line part.now }
{
    check::same(part, b"h q[0];\n")
        || check::same(part, b"s q[0];\n")
        || check::same(part, b"t q[0];\n")
}

// Whether all parts of eight bytes are lines.
fn are_lines(text: &[u8]) -> bool
    ensures { result ≡ are_lines (length text.now / 8) text.now }
{
    for i in (0..text.len() / 8).rev() {
        let at = 8 * i;
        let end = at + 8;
        if !is_line(&text[at..end]) {
            return false;
        }
    }
    true
}

// Whether a text is lines and nothing else.
#[tactic(auto, unfolding(crate::specs::Text::is_text))]
pub(crate) fn is_text(text: &[u8]) -> bool
    ensures { result ≡ is_text text.now }
{
    text.len() % 8 == 0 && are_lines(text)
}
