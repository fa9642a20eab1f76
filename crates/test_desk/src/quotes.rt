// Rows of tariffs: prices of H, S, T and W and a memory | a word, or a tray | `refused R`, or ticks and yes or no; of a tray yes or no alone.
use crate::cells;
use gate_tariff::Tariff;

pub fn right(row: &[u8], tray: bool) -> bool {
    let mut space = io::buffer();
    let k = cells::bytes_of(test_rows::cell_of_three(row, 1), &mut space);
    answered(row, &space[..k], tray)
}

// Whether the library answers for a word, or a tray, what a row says.
pub fn answered(row: &[u8], word: &[u8], tray: bool) -> bool {
    let n = text_words::numbers_from(test_rows::cell_of_three(row, 0), 0);
    let v = n.values;
    let p = Tariff {
        h: cells::size(v[0]),
        s: cells::size(v[1]),
        t: cells::size(v[2]),
        w: cells::size(v[3]),
    };
    is_answer(row, asked(p, word, cells::size(v[4]), tray), tray)
}

fn asked(
    p: Tariff,
    word: &[u8],
    memory: u32,
    tray: bool,
) -> Result<(u32, bool), gate_tariff::Refusal> {
    if tray {
        gate_tariff::tray_cost(p, word, memory)
    } else {
        gate_tariff::cost(p, word, memory)
    }
}

fn is_answer(row: &[u8], a: Result<(u32, bool), gate_tariff::Refusal>, tray: bool) -> bool {
    match a {
        Ok((n, fits)) => is_cost(row, n, fits, tray),
        Err(why) => cells::refused(row, why.number()),
    }
}

fn is_cost(row: &[u8], n: u32, fits: bool, tray: bool) -> bool {
    let mut line = [0u8; 32];
    let at = put_ticks(&mut line, n, tray);
    let end = put_fits(&mut line, at, fits);
    cells::answers(row, &line, end)
}

fn put_ticks(line: &mut [u8], n: u32, tray: bool) -> usize {
    if tray {
        return 0;
    }
    let at = text::put_unsigned(line, 0, u64::from(n));
    text::put_byte(line, at, b' ')
}

fn put_fits(line: &mut [u8], at: usize, fits: bool) -> usize {
    if fits {
        text::put_bytes(line, at, b"yes")
    } else {
        text::put_bytes(line, at, b"no")
    }
}
