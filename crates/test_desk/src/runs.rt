// Rows of tariffs whose bytes are runs: prices and a memory | how many times, so many of a byte, that byte, and a last byte behind each run | the answer.
ghost use Rattle.io.specs.Counts.{IsPrefixLen};

use crate::{cells, quotes};

pub fn right(row: &[u8], tray: bool) -> bool {
    let n = text_words::numbers_from(test_rows::cell_of_three(row, 1), 0);
    let v = n.values;
    let times = cells::size(v[0]);
    let run = cells::size(v[1]);
    let mut space = room();
    let k = fill(&mut space, times, run, small(v[2]), small(v[3]));
    quotes::answered(row, &space[..k], tray)
}

// Zeros for eight words of 65,536 letters, each with its line feed, and more.
fn room() -> [u8; 600000] {
    [0; 600000]
}

// A number as a byte; 0 where it is none.
fn small(z: i64) -> u8 {
    u8::try_from(cells::size(z)).unwrap_or(0)
}

// The runs, from the start of a slice on, and how many bytes they have.
fn fill(out: &mut [u8], times: u32, run: u32, byte: u8, last: u8) -> usize
    ensures { IsPrefixLen result out.new }
{
    let run = run as usize;
    let period = run + 1;
    let n = out.len().min(period * times as usize);
    for i in 0..n {
        out[i] = if i % period == run { last } else { byte };
    }
    n
}
