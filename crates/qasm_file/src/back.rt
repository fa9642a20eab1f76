// The word of a file.
ghost use Rattle.std.specs.Prelude.{◌≡◌, ◌≤◌, true, [], ◌∷◌, length};
ghost use Rattle.text_puts.specs.Puts.{Puts};
ghost use Rattle.text_puts.specs.Texts.{shown};
ghost use Rattle.qasm_file.specs.File.{begins_file, line_texts, back_texts};

// What `unqasm` prints for an input.
pub fn put_back(out: &mut [u8], bytes: &[u8]) -> usize
    ensures { Puts (out.old, 0) (back_texts bytes.now) (out.new, result) 65537 }
{
    if 524335 < bytes.len() {
        return list_lines::put_too_long(out, 0);
    }
    if !begins(bytes) {
        return text_puts::put_refusal(out, 0, refusals::NOT_A_LINE, 0);
    }
    put_lines_word(out, &bytes[47..])
}

// Whether the header stands at the beginning.
fn begins(bytes: &[u8]) -> bool
    ensures { (result ≡ begins_file bytes.now) × (result ≡ true → 47 ≤ length bytes.now) }
{
    if bytes.len() < 47 {
        return false;
    }
    check::same(
        &bytes[..47],
        b"OPENQASM 2.0;\ninclude \"qelib1.inc\";\nqreg q[1];\n",
    )
}

// The word of lines.
fn put_lines_word(out: &mut [u8], lines: &[u8]) -> usize
    requires { length lines.now ≤ 524288 }
    ensures { Puts (out.old, 0) (line_texts lines.now) (out.new, result) 65537 }
{
    let mut word = word_buffer();
    let a = gate_qasm::read(lines, &mut word);
    match a {
        Ok(n) => put_word(out, &word[..n]),
        Err(f) => text_puts::put_refusal(out, 0, f.number(), 47),
    }
}

fn put_word(out: &mut [u8], word: &[u8]) -> usize
    requires { length word.now ≤ 65536 }
    ensures { Puts (out.old, 0) (shown word.now ∷ (10 ∷ []) ∷ []) (out.new, result) 65537 }
{
    let at = text_puts::put_word(out, 0, word);
    text::put_byte(out, at, b'\n')
}

// Room for the word of 65,536 lines.
fn word_buffer() -> [u8; 65536]
    ensures { 65536 ≡ length result }
{
    [0; 65536]
}
