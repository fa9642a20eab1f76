// Tables of text, one row a line: reading them, the cells and the numbers of a row, and how many rows differ.
#![tactic(auto)]

ghost use Rattle.std.specs.Prelude.{◌≡◌};
ghost use Rattle.io.specs.Counts.{IsPrefixLen};
ghost use Rattle.test_rows.specs.Cells.{cell_of};

use std::io::Read;
use std::rt::Files;
use std::time::Clock;
use text_scan::Number;

// How many numbers of a text are kept.
pub const WIDTH: usize = 144;

// The first numbers of a text, and how many they are.
#[derive(Clone, Copy)]
pub struct Numbers {
    pub values: [i64; WIDTH],
    pub count: usize,
}

// How many rows there were, and how many of them differ.
#[derive(Clone, Copy)]
struct Tally {
    rows: u64,
    different: u64,
}

impl Tally {
    // Of the lines of a text, those that are not right.
    fn of<F: Fn(&[u8], &[u8]) -> bool>(s: &[u8], right: F) -> Tally
        requires { F.IsAlwaysCallable right }
    {
        let mut rows = 0u64;
        let mut different = 0u64;
        let mut at = 0usize;
        for line in s.split_inclusive(|b| *b == b'\n') {
            let row = line.strip_suffix(b"\n").unwrap_or(line);
            let text = s.get(at..).unwrap_or(&[]);
            rows = rows.wrapping_add(1);
            if !right(row, text) {
                different = different.wrapping_add(1);
            }
            at = at.wrapping_add(line.len());
        }
        Tally { rows, different }
    }

    // A line with both numbers, on standard output.
    fn print<R: Print + Eprint + Clock>(self, rt: &R, name: &[u8]) {
        let mut line = io::buffer();
        let n = self.put(&mut line, name);
        if n <= line.len() {
            system_streams::print(rt, &line[..n]);
        }
    }

    fn put(self, out: &mut [u8], name: &[u8]) -> usize {
        let at = text::put_bytes(out, 0, name);
        let at = text::put_bytes(out, at, b": rows ");
        let at = text::put_unsigned(out, at, self.rows);
        let at = text::put_bytes(out, at, b", different ");
        let at = text::put_unsigned(out, at, self.different);
        text::put_byte(out, at, b'\n')
    }
}

// Reads a table, and prints how many rows it has, and how many of them are not right, by each row and the text that begins with it.
pub fn compare<R: Files + Print + Eprint + Clock, F: Fn(&[u8], &[u8]) -> bool>(
    rt: &R,
    name: &[u8],
    file: &[u8],
    right: F,
)
    requires { F.IsAlwaysCallable right }
{
    let mut space = io::large_buffer();
    let n = load(rt, file, &mut space);
    Tally::of(&space[..n], right).print(rt, name);
}

// The file's bytes at the start of space, and how many; none where it cannot be opened or read.
fn load<R: Files + Eprint + Clock>(rt: &R, name: &[u8], space: &mut [u8]) -> usize
    ensures { IsPrefixLen result space.new }
{
    match system_streams::open(rt, name) {
        Ok(file) => read(file, rt, name, space),
        Err(why) => {
            system_streams::fail(rt, name, why);
            0
        }
    }
}

fn read<F: Read + Drop, R: Eprint + Clock>(
    mut file: F,
    rt: &R,
    name: &[u8],
    space: &mut [u8],
) -> usize
    ensures { IsPrefixLen result space.new }
{
    let got = system_streams::read(&mut file, rt, name, space);
    if got.failed {
        return 0;
    }
    got.at
}

// The n-th of the cells of a row, which bars part, without the space about it; empty where there are fewer.
pub fn cell(row: &[u8], n: usize) -> &[u8]
    ensures { result.now ≡ cell_of row.now n }
{
    row.split(|b| *b == b'|').nth(n).unwrap_or(&[]).trim_ascii()
}

// The n-th of the three cells of a row, which bars part: the third goes to the row's end. Without the spaces before it and one behind it; empty where there are fewer.
pub fn cell_of_three(row: &[u8], n: usize) -> &[u8] {
    let whole = row.splitn(3, |b| *b == b'|').nth(n).unwrap_or(&[]);
    let cell = whole.get(text_scan::spaces_from(whole, 0)..).unwrap_or(&[]);
    cell.strip_suffix(b" ").unwrap_or(cell)
}

impl Numbers {
    // The numbers of a text, whatever stands between them.
    pub fn of(s: &[u8]) -> Numbers {
        let mut values = [0i64; WIDTH];
        let mut count = 0;
        let mut i = 0;
        // A while: the step is past a number where one stands.
        while i < s.len() && count < WIDTH {
            if let Number::Value(value, after) = text_scan::number_at(s, i) {
                values[count] = value;
                count += 1;
                i = after.max(i + 1);
            } else {
                i += 1;
            }
        }
        Numbers { values, count }
    }
}
