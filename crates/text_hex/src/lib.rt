// Hexadecimal pairs: the bytes that a word spells, written to a slice that the caller lends, and the digits that spell bytes.
#![tactic(auto)]

ghost use Rattle.std.specs.Prelude.{◌≡◌, true, ◌/◌, ◌<◌, ◌≤◌, length, drop, ◌++◌};
ghost use Rattle.text_hex.specs.Hex.{digit_of, all_hex, pairs, is_hex, hex_of, hex_written};

// The bytes that a word spells, at the start of out. One that spells none, or more than out has room for, is bad, and nothing is written.
pub fn unhex(word: &[u8], out: &mut [u8]) -> Option<usize>
    ensures { (result ≡ hex_of word.now (length out.old)) × (out.new ≡ hex_written word.now out.old) }
{
    if !is_hex(word) {
        return None;
    }
    let n = word.len() / 2;
    if out.len() < n {
        return None;
    }
    put_pairs(word, out);
    Some(n)
}

// Whether a word is digits and nothing else, an even number of them.
#[tactic(auto, unfolding(crate::specs::Hex::is_hex))]
fn is_hex(word: &[u8]) -> bool
    ensures { result ≡ is_hex word.now }
{
    word.len() % 2 == 0 && all_hex(word)
}

fn all_hex(word: &[u8]) -> bool
    ensures { result ≡ all_hex word.now }
{
    word.iter().all(|b| digit(*b) < 16)
}

// The value of a digit, 16 for any other byte.
#[tactic(auto, unfolding(crate::specs::Hex::digit_of))]
fn digit(b: u8) -> u8
    ensures { result ≡ digit_of b }
{
    match b {
        b'0'..=b'9' => b - b'0',
        b'A'..=b'F' => b - b'A' + 10,
        b'a'..=b'f' => b - b'a' + 10,
        _ => 16,
    }
}

fn put_pairs(word: &[u8], out: &mut [u8])
    requires { (is_hex word.now ≡ true) × (length word.now / 2 ≤ length out.old) }
    ensures { out.new ≡ pairs word.now ++ drop (length word.now / 2) out.old }
{
    for i in 0..word.len() / 2 {
        out[i] = digit(word[2 * i]) * 16 + digit(word[2 * i + 1]);
    }
}

// The digits that spell the bytes, two to a byte, from a place on, and the place after them. What does not fit is not written.
pub fn put_hex(out: &mut [u8], from: usize, bytes: &[u8]) -> usize {
    let mut at = from;
    for b in bytes {
        at = put_pair(out, at, *b);
    }
    at
}

fn put_pair(out: &mut [u8], at: usize, b: u8) -> usize {
    let at = text::put_byte(out, at, letter(b / 16));
    text::put_byte(out, at, letter(b % 16))
}

// A digit's byte, in lower case.
fn letter(d: u8) -> u8
    requires { d < 16 }
{
    if d < 10 { b'0' + d } else { b'a' + (d - 10) }
}
