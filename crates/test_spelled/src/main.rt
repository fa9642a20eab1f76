// Compares two tables of another implementation (data/, one row a line) with the gate words of the library, and prints how many rows differ:
// the 192 tails, and words of U and TUT† with the part that is handed back.
#![tactic(auto)]

mod pairs;
mod tails;

fn main(rt: HostRuntime) {
    test_rows::compare(&rt, b"tails", b"tails.txt", |row, _| { tails::right(row) });
    test_rows::compare(&rt, b"words", b"words.txt", pairs::right);
}

// What stands behind a word at the front of a text, `-` where the word is empty.
pub(crate) fn past_word<'a>(text: &'a [u8], word: &[u8]) -> Option<&'a [u8]> {
    text.strip_prefix(if word.is_empty() { b"-" } else { word })
}
