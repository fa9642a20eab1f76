// Rows of texts: a word, or a text, in hexadecimal | how many bytes are lent | `refused R`, or the text in hexadecimal, or the word; `-` for none.
use crate::cells;

pub fn right(row: &[u8], reads: bool) -> bool {
    let n = text_words::numbers_from(test_rows::cell_of_three(row, 1), 0);
    let room = cells::size(n.values[0]) as usize;
    let mut space = io::buffer();
    let k = cells::bytes_of(test_rows::cell_of_three(row, 0), &mut space);
    let mut out = io::buffer();
    is_right(row, &space[..k], &mut out, room, reads)
}

// The same, with the first bytes of a slice lent.
fn is_right(row: &[u8], given: &[u8], out: &mut [u8], room: usize, reads: bool) -> bool {
    if out.len() < room {
        return false;
    }
    match asked(given, &mut out[..room], reads) {
        Ok(n) => is_written(row, n, out, reads),
        Err(why) => cells::refused(row, why.number()),
    }
}

fn asked(given: &[u8], lent: &mut [u8], reads: bool) -> Result<usize, gate_qasm::Refusal> {
    if reads {
        gate_qasm::read(given, lent)
    } else {
        gate_qasm::write(given, lent)
    }
}

// Whether the first n bytes are those of the row's answer: as they stand, or in hexadecimal.
fn is_written(row: &[u8], n: usize, out: &[u8], reads: bool) -> bool {
    let said = test_rows::cell_of_three(row, 2);
    if n == 0 {
        return said == b"-".as_slice();
    }
    if reads {
        return cells::answers(row, out, n);
    }
    let mut space = io::buffer();
    let k = cells::bytes_of(said, &mut space);
    n <= out.len() && space[..k] == out[..n]
}
