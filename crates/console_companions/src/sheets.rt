// `sheet READER` and the bytes of a sheet; `put-sheet ROOM K`, the four numbers of u, those of t, and `TICKS`.
use console_replies::{Line, Value};
use pattern_sheet::{Reading, Refusal, Sheet};
use text_words::Numbers;

// The answer to `sheet`.
pub fn reading(line: &[u8], from: usize) -> Line {
    let n = text_words::numbers_before(line, from, 1);
    if !n.good {
        return Line::Bad;
    }
    let mut given = crate::byte_buffer();
    match crate::last_bytes(line, n.end, &mut given) {
        Some(bytes) => read_by(n.values[0], bytes),
        None => Line::Bad,
    }
}

// A reading by the reader of a number.
fn read_by(reader: i64, bytes: &[u8]) -> Line {
    let Some(r) = console_arguments::natural_of(reader) else {
        return Line::Bad;
    };
    match u8::try_from(r) {
        Ok(r) => read_of(pattern_sheet::read(r, bytes)),
        Err(_) => Line::Refused(Refusal::NoReader.number()),
    }
}

fn read_of(r: Reading) -> Line {
    match r {
        Reading::Desk(s, taken) => Line::Good(desk_of(s, taken)),
        Reading::Crew(m, ticks, taken) => Line::Good(Value::Crew(taken, m, ticks)),
        Reading::Refused(f) => Line::Refused(f.number()),
    }
}

fn desk_of(s: Sheet, taken: usize) -> Value {
    console_replies::of_desk(taken, s.k, s.u, s.t, s.ticks)
}

// The line that answers `put-sheet`, and its length.
pub fn put_sheet(out: &mut [u8], line: &[u8], from: usize) -> usize {
    let n = text_words::numbers_from(line, from);
    if n.good && n.count == 11 {
        put_fields(out, n)
    } else {
        console_replies::put_bad(out)
    }
}

// What the numbers of a line ask for: a sheet, and the length of the slice to be lent.
#[derive(Clone, Copy)]
enum Asked {
    Sheet(Sheet, usize),
    Bad,
}

fn asked_of(n: Numbers) -> Asked {
    let w = n.values;
    let Some(room) = text_words::room(w[0]) else {
        return Asked::Bad;
    };
    let Some((k, u)) = console_arguments::scaled_at(&w, 1) else {
        return Asked::Bad;
    };
    let Some(t) = console_arguments::point_at(&w, 6) else {
        return Asked::Bad;
    };
    let Some(ticks) = console_arguments::word_of(w[10]) else {
        return Asked::Bad;
    };
    Asked::Sheet(Sheet { k, u, t, ticks }, room)
}

fn put_fields(out: &mut [u8], n: Numbers) -> usize {
    let Asked::Sheet(s, room) = asked_of(n) else {
        return console_replies::put_bad(out);
    };
    let mut bytes = io::large_buffer();
    let Some(lent) = bytes.get_mut(..room) else {
        return console_replies::put_bad(out);
    };
    match pattern_sheet::write(s, lent) {
        Ok(k) => match bytes.get(..k) {
            Some(sheet) => console_replies::put_hexed(out, sheet),
            None => console_replies::put_bad(out),
        },
        Err(f) => console_replies::put_refused(out, f.number()),
    }
}
