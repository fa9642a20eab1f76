// Compares tables of another implementation (data/, one row a line) with what the library answers, and prints how many rows differ; then numbers of two words about 2^64 and 2^128.
#![tactic(auto)]

mod entries;
mod exponent;
mod handed;
mod lines;
mod operators;
mod sign;

use integers_wide::Size;
use std::time::Clock;

fn main(rt: HostRuntime) {
    test_rows::compare(&rt, b"sign", b"sign.txt", |row, _| { sign::right(row) });
    test_rows::compare(&rt, b"exponent", b"exponent.txt", |row, _| {
        exponent::right(row)
    });
    test_rows::compare(&rt, b"op", b"op.txt", |row, _| {
        operators::check_right(row)
    });
    test_rows::compare(&rt, b"apply", b"apply.txt", |row, _| {
        operators::image_right(row)
    });
    test_rows::compare(&rt, b"line", b"line.txt", |row, _| { lines::right(row) });
    test_rows::compare(&rt, b"entry", b"entry.txt", |row, _| {
        entries::right(row)
    });
    print_wide(&rt, 0, u64::MAX);
    print_wide(&rt, 1, 0);
    print_wide(&rt, u64::MAX, u64::MAX);
}

// A number of two words in decimal, on a line.
fn print_wide<R: Print + Eprint + Clock>(rt: &R, hi: u64, lo: u64) {
    let mut line = io::buffer();
    let n = text::put_wide(&mut line, 0, Size { hi, lo });
    if system_streams::print(rt, &line[..n]) {
        system_streams::print(rt, b"\n");
    }
}
