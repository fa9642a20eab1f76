// Records in place of random bytes, with one of those put among them.
ghost use Rattle.std.specs.Prelude.{◌≡◌, ◌+◌, ◌≤◌, length};

use std::time::Clock;

// Five jobs: unit disks; a rectangle and an ellipse at scale 1, all points; a point and a small square at scale 20, all points; a slice and the unit disk at scale 2; the unit disk and a slice at scale 3, new points by a record. Then two operators.
const RECORDS: [u8; 234] = [
    1, 0, 3, 1, 0, 0, 0, 0, 0, 0, 0, 0, 0, 1, 0, 0, 0, 1, 0, 1, 0, 0, 0, 3, 1, 0, 0, 0, 0, 0, 0, 0,
    0, 0, 1, 0, 0, 0, 1, 0, 1, 0, 0, 0, 1, 1, 6, 1, 2, 2, 0, 254, 255, 255, 255, 3, 0, 0, 0, 255,
    255, 255, 255, 2, 0, 0, 0, 3, 1, 0, 0, 0, 0, 0, 1, 0, 0, 0, 2, 0, 1, 0, 1, 0, 2, 0, 0, 0, 1,
    20, 6, 1, 2, 4, 0, 3, 0, 0, 0, 3, 0, 0, 0, 255, 255, 255, 255, 255, 255, 255, 255, 2, 100, 0,
    74, 0, 0, 0, 75, 0, 0, 0, 230, 255, 255, 255, 231, 255, 255, 255, 1, 2, 5, 2, 0, 1, 0, 1, 0, 2,
    0, 0, 0, 3, 1, 0, 0, 0, 0, 0, 0, 0, 0, 0, 1, 0, 0, 0, 1, 0, 1, 0, 0, 0, 1, 3, 6, 0, 3, 1, 0, 0,
    0, 0, 0, 0, 0, 0, 0, 1, 0, 0, 0, 1, 0, 1, 0, 0, 0, 5, 3, 0, 1, 0, 254, 255, 5, 0, 0, 0, 4, 0,
    0, 0, 0, 0, 0, 1, 0, 255, 255, 1, 0, 1, 0, 0, 0, 4, 0, 0, 0, 0, 0, 0, 1, 0, 0, 0, 1, 0, 0, 0,
    2, 0,
];

// Where the records of a job stand, which is before the operators, and how many bytes they have.
#[derive(Clone, Copy)]
struct Job {
    start: usize,
    len: usize,
    ghost before_operators: { start + len ≤ 200 },
}

// What the list program prints for as many bytes of records as there are random ones.
pub fn list<R: Print + Eprint + Clock>(rt: &R, noise: &[u8]) -> bool {
    let mut space = buffer();
    list_in(rt, &mut space, noise)
}

fn list_in<R: Print + Eprint + Clock>(rt: &R, space: &mut [u8], noise: &[u8]) -> bool {
    let n = noise.len();
    let h = job_for(n);
    fill(space, h);
    spoil(space, n, h, noise);
    print(rt, space, n)
}

fn print<R: Print + Eprint + Clock>(rt: &R, bytes: &[u8], n: usize) -> bool {
    if n > bytes.len() {
        return false;
    }
    list_printing::print_list(rt, &bytes[..n])
}

fn buffer() -> [u8; 70000]
    ensures { 70000 ≡ length result }
{
    [0; 70000]
}

fn job_for(n: usize) -> Job {
    match n / 3 % 5 {
        0 => Job { start: 0, len: 44 },
        1 => Job { start: 44, len: 44 },
        2 => Job { start: 88, len: 42 },
        3 => Job {
            start: 130,
            len: 34,
        },
        _ => Job {
            start: 164,
            len: 36,
        },
    }
}

// A job, then the two operators again and again.
fn fill(bytes: &mut [u8], h: Job) {
    for (i, b) in bytes.iter_mut().enumerate() {
        *b = byte(h, i);
    }
}

fn byte(h: Job, i: usize) -> u8 {
    if i < h.len {
        RECORDS[h.start + i]
    } else {
        RECORDS[200 + (i - h.len) % 34]
    }
}

// One of the first n bytes changed where the last record is not whole, so that no list becomes long by it.
fn spoil(bytes: &mut [u8], n: usize, h: Job, noise: &[u8]) {
    if noise.len() < 5 || is_whole(h, n) {
        return;
    }
    let x = u32::from_be_bytes([0, noise[0], noise[1], noise[2]]) as usize;
    put(bytes, n, place(x, noise[3]), noise[4]);
}

fn is_whole(h: Job, n: usize) -> bool {
    h.len <= n && (n - h.len) % 17 == 0
}

// Among the first 61 bytes for half of the random ones.
fn place(x: usize, b: u8) -> usize {
    if b < 128 { x % 61 } else { x }
}

fn put(bytes: &mut [u8], n: usize, x: usize, b: u8) {
    if n == 0 {
        return;
    }
    let at = x % n;
    if at < bytes.len() {
        bytes[at] = b;
    }
}
