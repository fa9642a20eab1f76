// What a line says.
ghost use Rattle.std.specs.Prelude.{◌≤◌, length, take, ◌≡◌, cond};
ghost use Rattle.text_scan.specs.Run.{spaces_from};
ghost use Rattle.text_words.specs.Numbers.{numbers_from};
ghost use Rattle.job_words.specs.Rows.{none, bad, fitted as fittedOf, numbered as numberedOf, disk_of, disk as diskRow, selection as selection_of, disk_numbers, last_place, named as named_of, words_row, row_of};
ghost use Rattle.job_words.specs.Laws.{Means};

use crate::Row;
use record_kinds::Kind;

// A comment begins with `#`.
pub(crate) fn row_of(line: &[u8]) -> Row
    ensures { Means (row_of line.now) result }
{
    let end = text_scan::run_end(line, 0, b'#', false);
    words_row(&line[..end])
}

fn words_row(line: &[u8]) -> Row
    ensures { Means (words_row line.now (spaces_from line.now 0)) result }
{
    let at = text_scan::spaces_from(line, 0);
    if line.len() <= at {
        return empty(true);
    }
    let end = text_scan::word_end(line, at);
    let p = text_words::place_of(
        &line[at..end],
        b"scale rectangle ellipse operator slice selection disk",
    );
    named(p, line, end)
}

// By the place of its name, what stands behind it.
fn named(p: usize, line: &[u8], from: usize) -> Row
    requires { from ≤ length line.now }
    ensures { Means (named_of p line.now from) result }
{
    match p {
        0 => numbered(Kind::Scale, line, from),
        1 => numbered(Kind::Rectangle, line, from),
        2 => numbered(Kind::Ellipse, line, from),
        3 => numbered(Kind::Operator, line, from),
        4 => numbered(Kind::Slice, line, from),
        5 => selection(line, from),
        6 => disk(line, from),
        _ => empty(false),
    }
}

fn numbered(kind: Kind, line: &[u8], from: usize) -> Row
    ensures { Means (numberedOf kind (numbers_from line.now from)) result }
{
    let n = text_words::numbers_from(line, from);
    let numbers = n.values;
    if n.good {
        fitted(kind, numbers, n.count)
    } else {
        empty(false)
    }
}

// A record where the numbers are as many as the kind has fields, at most eight, and have room.
fn fitted(kind: Kind, numbers: [i64; 16], count: usize) -> Row
    ensures { Means (fittedOf kind (take count numbers)) result }
{
    if 8 < count {
        return empty(false);
    }
    let good = record_forms::takes_all(kind, &numbers[..count]);
    Row {
        kind,
        numbers,
        count,
        blank: false,
        good,
    }
}

// `selection new`, `selection all`, or its number.
fn selection(line: &[u8], from: usize) -> Row
    requires { from ≤ length line.now }
    ensures { Means (selection_of line.now from) result }
{
    let at = text_scan::spaces_from(line, from);
    let p = last_place(line, at);
    match p {
        0 => fitted(Kind::Selection, [0; 16], 1),
        1 => fitted(Kind::Selection, [1; 16], 1),
        _ => numbered(Kind::Selection, line, from),
    }
}

// The place among the choices of the word at a place, where it is the line's last.
fn last_place(line: &[u8], at: usize) -> usize
    requires { at ≤ length line.now }
    ensures { result ≡ last_place line.now at }
{
    let end = text_scan::word_end(line, at);
    if text_scan::spaces_from(line, end) < line.len() {
        return 2;
    }
    text_words::place_of(&line[at..end], b"new all")
}

// The disk of radius 1 over N.
fn disk(line: &[u8], from: usize) -> Row
    ensures { Means (diskRow (numbers_from line.now from)) result }
{
    let n = text_words::numbers_from(line, from);
    let numbers = n.values;
    if n.good {
        disk_of(numbers, n.count)
    } else {
        empty(false)
    }
}

fn disk_of(numbers: [i64; 16], count: usize) -> Row
    ensures { Means (disk_of (take count numbers)) result }
{
    if count != 1 {
        return empty(false);
    }
    disk_over(numbers[0])
}

fn disk_over(n: i64) -> Row
    ensures { Means (fittedOf Kind.Ellipse (disk_numbers n)) result }
{
    if n < 0 || 65535 < n {
        return empty(false);
    }
    fitted(
        Kind::Ellipse,
        [n, 0, 0, 1, 0, 1, n * n, 0, 0, 0, 0, 0, 0, 0, 0, 0],
        7,
    )
}

// No record: of a line that is blank, or of one that says none.
fn empty(blank: bool) -> Row
    ensures { Means (cond blank none bad) result }
{
    Row {
        kind: Kind::Unknown,
        numbers: [0; 16],
        count: 0,
        blank,
        good: false,
    }
}
