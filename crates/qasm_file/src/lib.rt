// A word as a file of OpenQASM 2.0, and such a file's word: SPEC, "OpenQASM programs".
#![tactic(auto)]

mod back;
mod place;

ghost use Rattle.std.specs.Prelude.{◌≡◌, ◌≤◌, [], ◌∷◌, length};
ghost use Rattle.text_puts.specs.Puts.{Puts};
ghost use Rattle.qasm_file.specs.File.{header, letter_texts, word_texts, file_texts};

pub use back::put_back;

// What `qasm` prints for an input.
pub fn put_file(out: &mut [u8], bytes: &[u8]) -> usize
    ensures { Puts (out.old, 0) (file_texts bytes.now) (out.new, result) 524335 }
{
    if 65536 < bytes.len() {
        return list_lines::put_too_long(out, 0);
    }
    let end = place::end_of(bytes);
    put_word(out, &bytes[..end])
}

fn put_word(out: &mut [u8], bytes: &[u8]) -> usize
    requires { length bytes.now ≤ 65536 }
    ensures { Puts (out.old, 0) (word_texts bytes.now) (out.new, result) 524335 }
{
    let at = place::place_of(bytes);
    put_letters(out, &bytes[at..], at)
}

// The file of a word that stands at a place of the input.
fn put_letters(out: &mut [u8], word: &[u8], place: usize) -> usize
    requires { length word.now ≤ 65536 }
    ensures { Puts (out.old, 0) (letter_texts place word.now) (out.new, result) 524335 }
{
    let mut lines = lines_buffer();
    let a = gate_qasm::write(word, &mut lines);
    match a {
        Ok(n) => put_lines(out, &lines[..n]),
        Err(f) => text_puts::put_refusal(out, 0, f.number(), place),
    }
}

fn put_lines(out: &mut [u8], lines: &[u8]) -> usize
    requires { length lines.now ≤ 524288 }
    ensures { Puts (out.old, 0) (header ∷ lines.now ∷ []) (out.new, result) 524335 }
{
    let at = text::put_bytes(
        out,
        0,
        b"OPENQASM 2.0;\ninclude \"qelib1.inc\";\nqreg q[1];\n",
    );
    text::put_bytes(out, at, lines)
}

// Room for the lines of any word of 65,536 letters.
fn lines_buffer() -> [u8; 524288]
    ensures { 524288 ≡ length result }
{
    [0; 524288]
}
