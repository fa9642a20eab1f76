// The console's commands for gate words, their costs and their texts, and for pattern sheets (SPEC, "Console").
#![tactic(auto)]

mod costs;
mod letters;
mod sheets;
mod texts;

ghost use Rattle.std.specs.Prelude.{◌≡◌, length};

// The line that answers a command, and its length; the arguments begin at `from`.
pub fn put(out: &mut [u8], c: usize, line: &[u8], from: usize) -> usize {
    match c {
        text_words::WORD => letters::put_words(out, line, from),
        text_words::COST | text_words::TRAY_COST => {
            console_replies::put(out, costs::cost(c, line, from), &[])
        }
        text_words::QASM => texts::put_text(out, line, from),
        text_words::UNQASM => texts::put_word(out, line, from),
        text_words::SHEET => console_replies::put(out, sheets::reading(line, from), &[]),
        text_words::PUT_SHEET => sheets::put_sheet(out, line, from),
        _ => console_replies::put_bad(out),
    }
}

// Room for the bytes that the last word of a line spells: one more than a word may have letters.
pub(crate) fn byte_buffer() -> [u8; 65537]
    ensures { 65537 ≡ length result }
{
    [0; 65537]
}

// The bytes that the last word of a line spells, at the front of a buffer.
pub(crate) fn last_bytes<'a>(line: &[u8], at: usize, bytes: &'a mut [u8]) -> Option<&'a [u8]> {
    match text_words::last_bytes(line, at, bytes) {
        Some(n) => bytes.get(..n),
        None => None,
    }
}
