// Bytes of every length from 0 to 70,000: for each what the list program prints. The expected output is the peer's, from its own parser and its own copy of the bytes.
// Of every third length they are the records of a job and operators, mostly with a byte changed, so that lists and all refusals are met; the others are random.
#![tactic(auto)]

mod records;

ghost use Rattle.std.specs.Prelude.{◌≡◌, length};

use std::time::Clock;

fn main(rt: HostRuntime) {
    let mut space = buffer();
    fill(&mut space);
    list_all(&rt, &space);
}

fn buffer() -> [u8; 140000]
    ensures { 140000 ≡ length result }
{
    [0; 140000]
}

// Bytes of a linear congruential generator; a quarter of them are from 0 to 7, so that kinds and scales are among them.
fn fill(bytes: &mut [u8]) {
    let mut x = 1;
    for b in bytes.iter_mut() {
        x = next(x);
        *b = byte_of(x);
    }
}

fn next(x: u32) -> u32 {
    x.wrapping_mul(1664525).wrapping_add(1013904223)
}

fn byte_of(x: u32) -> u8 {
    let b = (x / 16777216) as u8;
    if x / 65536 % 4 == 0 { b % 8 } else { b }
}

// The n bytes from place n on, for each n, until an output is not taken.
fn list_all<R: Print + Eprint + Clock>(rt: &R, bytes: &[u8]) {
    for n in 0..=bytes.len() / 2 {
        if !list_one(rt, &bytes[n..n + n]) {
            return;
        }
    }
}

// Whether all of it was taken.
fn list_one<R: Print + Eprint + Clock>(rt: &R, bytes: &[u8]) -> bool {
    if bytes.len() % 3 == 0 {
        records::list(rt, bytes)
    } else {
        list_printing::print_list(rt, bytes)
    }
}
