// A job in words as its records: SPEC, "Jobs in words".
#![tactic(auto)]

ghost use Rattle.std.specs.Prelude.{◌≡◌, ◌≤◌, ltb, length};
ghost use Rattle.record_forms.specs.Laid.{Laid};
ghost use Rattle.text_puts.specs.Puts.{Puts};
ghost use Rattle.job_words.specs.Rows.{row_of, rows_of, is_bad, row_bytes, first_bad, bytes_of, job_texts};

mod reading;

use record_kinds::Kind;

// Nothing, where the line is blank; else a record of a kind with the first `count` numbers, where it is good.
#[derive(Clone, Copy)]
struct Row {
    kind: Kind,
    numbers: [i64; 16],
    count: usize,
    blank: bool,
    good: bool,
}

// All that `job` prints for an input.
pub fn put(out: &mut [u8], bytes: &[u8]) -> usize
    ensures { Puts (out.old, 0) (job_texts bytes.now) (out.new, result) 65536 }
{
    if 458752 < bytes.len() {
        return list_lines::put_too_long(out, 0);
    }
    let line = bad_line(bytes);
    if line != 0 {
        return text_puts::put_number(out, 0, b"bad line", line as u64);
    }
    if exceeds(bytes) {
        return list_lines::put_too_long(out, 0);
    }
    put_records(out, bytes)
}

// The number of the first line that says no record, from 1 on; 0 where there is none.
fn bad_line(bytes: &[u8]) -> usize
    ensures { result ≡ first_bad 1 (rows_of bytes.now) }
{
    let mut at = 0;
    let mut line = 1;
    // A while: the step is not one, it is past the line.
    while at < bytes.len() {
        let end = text_scan::line_end(bytes, at);
        if is_bad(&bytes[at..end]) {
            return line;
        }
        at = end + 1;
        line += 1;
    }
    0
}

// Whether the records of all lines have more than 65,536 bytes.
fn exceeds(bytes: &[u8]) -> bool
    ensures { result ≡ ltb 65536 (length (bytes_of (rows_of bytes.now))) }
{
    let mut at = 0;
    let mut total = 0;
    // A while: the step is not one, it is past the line.
    while at < bytes.len() {
        let end = text_scan::line_end(bytes, at);
        total += row_length(&bytes[at..end]);
        if 65536 < total {
            return true;
        }
        at = end + 1;
    }
    false
}

// The records of all lines.
fn put_records(out: &mut [u8], bytes: &[u8]) -> usize
    ensures { Laid out.old 0 (bytes_of (rows_of bytes.now)) out.new result }
{
    let mut at = 0;
    let mut end_of = 0;
    // A while: the step is not one, it is past the line.
    while at < bytes.len() {
        let end = text_scan::line_end(bytes, at);
        end_of = put_row(out, end_of, &bytes[at..end]);
        at = end + 1;
    }
    end_of
}

fn is_bad(line: &[u8]) -> bool
    ensures { result ≡ is_bad (row_of line.now) }
{
    let r = reading::row_of(line);
    !r.blank && !r.good
}

// How many bytes a line's record has.
fn row_length(line: &[u8]) -> usize
    ensures { (result ≡ length (row_bytes (row_of line.now))) × (result ≤ 21) }
{
    let r = reading::row_of(line);
    if r.blank || !r.good {
        return 0;
    }
    let kind = r.kind;
    1 + record_kinds::body_length(kind)
}

// A line's record, where it says one.
fn put_row(out: &mut [u8], at: usize, line: &[u8]) -> usize
    ensures { Laid out.old at (row_bytes (row_of line.now)) out.new result }
{
    let r = reading::row_of(line);
    if r.blank || !r.good {
        return at;
    }
    let numbers = r.numbers;
    let count = r.count;
    let kind = r.kind;
    record_forms::put_record(out, at, kind, &numbers[..count])
}
