// Calls on words, to be timed: standard input is a mode, one byte, and a word or a text. The call is made again and again, and the sum of its answers is printed.
#![tactic(auto)]

use gate_tariff::Tariff;
use std::time::Clock;

const TURNS: u64 = 20000;

fn main(rt: HostRuntime) {
    let mut from = rt.reader();
    let mut mode = [0u8; 1];
    system_streams::read(&mut from, &rt, b"standard input", &mut mode);
    let mut given = io::large_buffer();
    let got = system_streams::read(&mut from, &rt, b"standard input", &mut given);
    let n = got.at;
    if got.failed {
        return;
    }
    let mut out = room();
    let mut line = io::buffer();
    let k = put(&mut line, timed(mode[0], &given[..n], &mut out));
    print(&rt, &line, k);
}

// Zeros for the text of a word of 65,536 letters.
fn room() -> [u8; 600000] {
    [0; 600000]
}

// A number, and the end of its line.
fn put(out: &mut [u8], sum: u64) -> usize {
    let at = text::put_unsigned(out, 0, sum);
    text::put_byte(out, at, b'\n')
}

fn print<R: Print + Eprint + Clock>(rt: &R, line: &[u8], n: usize) {
    if n <= line.len() {
        system_streams::print(rt, &line[..n]);
    }
}

// The sum of what the calls answer.
fn timed(mode: u8, given: &[u8], out: &mut [u8]) -> u64 {
    let mut sum = 0u64;
    for i in 0..TURNS {
        sum = sum.wrapping_add(one(mode, given, out, i));
    }
    sum
}

fn one(mode: u8, given: &[u8], out: &mut [u8], i: u64) -> u64 {
    match mode {
        b'c' => ticks(gate_tariff::cost(prices(i), given, 4000000000)),
        b'w' => length(gate_qasm::write(given, out)),
        b'r' => length(gate_qasm::read(given, out)),
        _ => 0,
    }
}

fn prices(i: u64) -> Tariff {
    Tariff {
        h: (i % 1000) as u32,
        s: 20,
        t: 30000,
        w: 40,
    }
}

fn ticks(a: Result<(u32, bool), gate_tariff::Refusal>) -> u64 {
    match a {
        Ok((n, _)) => u64::from(n),
        Err(why) => u64::from(why.number()),
    }
}

fn length(a: Result<usize, gate_qasm::Refusal>) -> u64 {
    match a {
        Ok(n) => n as u64,
        Err(why) => u64::from(why.number()),
    }
}
