// Stored jobs (data/) whose lists come from another implementation: for each line of standard input its text, and then what the list program prints for the job of that name.
// The expected output is made of the stored lists, so one byte that differs fails the run.
#![tactic(auto)]

use std::io::Read;
use std::rt::Files;
use std::time::Clock;

fn main(rt: HostRuntime) {
    let mut names = io::large_buffer();
    let mut from = rt.reader();
    let got = system_streams::read(&mut from, &rt, b"standard input", &mut names);
    let n = got.at;
    if !got.failed {
        list_all(&rt, &names[..n]);
    }
}

// Line by line, until one of them is not taken.
fn list_all<R: Files + Print + Eprint + Clock>(rt: &R, names: &[u8]) {
    for line in names.split_inclusive(|b| *b == b'\n') {
        if !list_one(rt, line.strip_suffix(b"\n").unwrap_or(line)) {
            return;
        }
    }
}

// Whether all of it was taken.
fn list_one<R: Files + Print + Eprint + Clock>(rt: &R, name: &[u8]) -> bool {
    if !system_streams::print(rt, name) {
        return false;
    }
    if !system_streams::print(rt, b"\n") {
        return false;
    }
    match system_streams::open(rt, name) {
        Ok(file) => list_file(file, rt, name),
        Err(why) => {
            system_streams::fail(rt, name, why);
            false
        }
    }
}

fn list_file<F: Read + Drop, R: Print + Eprint + Clock>(mut file: F, rt: &R, name: &[u8]) -> bool {
    let mut job = list_printing::input_buffer();
    let got = system_streams::read(&mut file, rt, name, &mut job);
    let n = got.at;
    if got.failed {
        return false;
    }
    list_printing::print_list(rt, &job[..n])
}
