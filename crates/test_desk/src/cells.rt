// What stands in the cells of a row.
ghost use Rattle.io.specs.Counts.{IsPrefixLen};

// A number of 32 bits; 0 for any other.
pub fn size(z: i64) -> u32 {
    u32::try_from(integers::abs(z)).unwrap_or(0)
}

// The bytes that pairs of hexadecimal digits spell, or none, and how many.
pub fn bytes_of(x: &[u8], out: &mut [u8]) -> usize
    ensures { IsPrefixLen result out.new }
{
    match text_hex::unhex(x, out) {
        Some(n) => within(n, out),
        None => 0,
    }
}

// A number of bytes, where a slice has as many, else 0.
fn within(n: usize, s: &[u8]) -> usize
    ensures { IsPrefixLen result s.now }
{
    if n <= s.len() { n } else { 0 }
}

// Whether the answer of a row is `refused` and a number.
pub fn refused(row: &[u8], number: u8) -> bool {
    let mut line = [0u8; 32];
    let at = text::put_bytes(&mut line, 0, b"refused ");
    let end = text::put_unsigned(&mut line, at, u64::from(number));
    answers(row, &line, end)
}

// Whether the answer of a row is the first n bytes of a line.
pub fn answers(row: &[u8], line: &[u8], n: usize) -> bool {
    n <= line.len() && test_rows::cell_of_three(row, 2) == &line[..n]
}
