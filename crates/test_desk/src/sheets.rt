// Rows of sheets: a reader | the bytes | `refused R`, or the bytes taken and what that reader sees.
use crate::cells;
use pattern_sheet::{Reading, Sheet};
use ring::Point;

pub fn right(row: &[u8]) -> bool {
    let n = text_words::numbers_from(test_rows::cell_of_three(row, 0), 0);
    let Ok(reader) = u8::try_from(cells::size(n.values[0])) else {
        return false;
    };
    let mut space = io::buffer();
    let k = cells::bytes_of(test_rows::cell_of_three(row, 1), &mut space);
    is_reading(row, pattern_sheet::read(reader, &space[..k]))
}

fn is_reading(row: &[u8], r: Reading) -> bool {
    match r {
        Reading::Desk(x, taken) => is_desk(row, x, taken),
        Reading::Crew(m, ticks, taken) => is_crew(row, m, ticks, taken),
        Reading::Refused(why) => cells::refused(row, why.number()),
    }
}

fn is_desk(row: &[u8], x: Sheet, taken: usize) -> bool {
    let mut line = [0u8; 256];
    let at = text::put_unsigned(&mut line, 0, taken as u64);
    let at = put_next(&mut line, at, i64::from(x.k));
    let at = put_point(&mut line, at, x.u);
    let at = put_point(&mut line, at, x.t);
    let end = put_next(&mut line, at, i64::from(x.ticks));
    cells::answers(row, &line, end)
}

fn is_crew(row: &[u8], m: u64, ticks: u32, taken: usize) -> bool {
    let mut line = [0u8; 64];
    let at = text::put_unsigned(&mut line, 0, taken as u64);
    let at = text::put_byte(&mut line, at, b' ');
    let at = text::put_unsigned(&mut line, at, m);
    let end = put_next(&mut line, at, i64::from(ticks));
    cells::answers(row, &line, end)
}

fn put_next(line: &mut [u8], at: usize, n: i64) -> usize {
    let at = text::put_byte(line, at, b' ');
    text::put_signed(line, at, n)
}

fn put_point(line: &mut [u8], at: usize, v: Point) -> usize {
    let at = put_next(line, at, i64::from(v.a));
    let at = put_next(line, at, i64::from(v.b));
    let at = put_next(line, at, i64::from(v.c));
    put_next(line, at, i64::from(v.d))
}
