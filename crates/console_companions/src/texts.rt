// `qasm ROOM` and the bytes of a word, `unqasm ROOM` and the bytes of a text; ROOM is the length of the slice lent.

// The line that answers `qasm`, and its length.
pub fn put_text(out: &mut [u8], line: &[u8], from: usize) -> usize {
    put(
        out,
        line,
        from,
        |word, text| gate_qasm::write(word, text),
        |out, text| console_replies::put_hexed(out, text),
    )
}

// The line that answers `unqasm`, and its length.
pub fn put_word(out: &mut [u8], line: &[u8], from: usize) -> usize {
    put(
        out,
        line,
        from,
        |text, word| gate_qasm::read(text, word),
        |out, word| console_replies::put_lettered(out, word),
    )
}

// The line that answers, and its length: what `call` writes of the bytes, as `put` shows it.
fn put<
    F: Fn(&[u8], &mut [u8]) -> Result<usize, gate_qasm::Refusal>,
    P: Fn(&mut [u8], &[u8]) -> usize,
>(out: &mut [u8], line: &[u8], from: usize, call: F, put: P) -> usize
    requires calls { F.IsAlwaysCallable call }
    requires puts { P.IsAlwaysCallable put }
{
    let n = text_words::numbers_before(line, from, 1);
    if !n.good {
        return console_replies::put_bad(out);
    }
    let Some(room) = text_words::room(n.values[0]) else {
        return console_replies::put_bad(out);
    };
    let mut given = crate::byte_buffer();
    let Some(bytes) = crate::last_bytes(line, n.end, &mut given) else {
        return console_replies::put_bad(out);
    };
    let mut written = io::large_buffer();
    let Some(lent) = written.get_mut(..room) else {
        return console_replies::put_bad(out);
    };
    match call(bytes, lent) {
        Ok(k) => match written.get(..k) {
            Some(text) => put(out, text),
            None => console_replies::put_bad(out),
        },
        Err(f) => console_replies::put_refused(out, f.number()),
    }
}
