// `cost` and `tray-cost`, each with H S T W MEMORY and the bytes of a word or of a tray of words.
use console_replies::{Line, Value};
use gate_tariff::Tariff;
use text_words::Numbers;

// The answer to either command.
pub fn cost(c: usize, line: &[u8], from: usize) -> Line {
    let n = text_words::numbers_before(line, from, 5);
    if !n.good {
        return Line::Bad;
    }
    let mut given = crate::byte_buffer();
    match crate::last_bytes(line, n.end, &mut given) {
        Some(bytes) => priced(c, n, bytes),
        None => Line::Bad,
    }
}

fn prices_of(h: i64, s: i64, t: i64, w: i64) -> Option<Tariff> {
    let h = console_arguments::word_of(h)?;
    let s = console_arguments::word_of(s)?;
    let t = console_arguments::word_of(t)?;
    let w = console_arguments::word_of(w)?;
    Some(Tariff { h, s, t, w })
}

fn priced(c: usize, n: Numbers, bytes: &[u8]) -> Line {
    let v = n.values;
    let Some(t) = prices_of(v[0], v[1], v[2], v[3]) else {
        return Line::Bad;
    };
    let Some(memory) = console_arguments::word_of(v[4]) else {
        return Line::Bad;
    };
    if c == text_words::COST {
        cost_of(gate_tariff::cost(t, bytes, memory))
    } else {
        fits_of(gate_tariff::tray_cost(t, bytes, memory))
    }
}

// The ticks, and whether they fit.
fn cost_of(a: Result<(u32, bool), gate_tariff::Refusal>) -> Line {
    match a {
        Ok((ticks, fits)) => Line::Good(Value::Told(u64::from(ticks), fits)),
        Err(f) => Line::Refused(f.number()),
    }
}

// Whether a tray fits.
fn fits_of(a: Result<(u32, bool), gate_tariff::Refusal>) -> Line {
    match a {
        Ok((_, fits)) => Line::Good(Value::Says(fits)),
        Err(f) => Line::Refused(f.number()),
    }
}
