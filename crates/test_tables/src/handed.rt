// What a row says of a hand-out, behind its second bar: the length lent, and `refused 4`, or the count, yes or no for the end, and the numbers.
ghost use Rattle.std.specs.Prelude.{◌≤◌};

use test_rows::{Numbers, WIDTH};

// What a call answered: a refusal, or the count, whether it is the end, and how many numbers were handed out.
#[derive(Clone, Copy)]
pub enum Given {
    Refused,
    Handed(usize, bool, usize),
    // The row has numbers that no call takes.
    NotCalled,
}

// How many numbers a row has before its second bar; none where it has fewer bars.
pub fn asked(row: &[u8]) -> usize {
    let mut cells = row.splitn(3, |b| *b == b'|');
    match (cells.next(), cells.next(), cells.next()) {
        (Some(x), Some(y), Some(_)) => Numbers::of(x).count.wrapping_add(Numbers::of(y).count),
        _ => 0,
    }
}

// The length that a row lends, its number at a place; 101 for any over 100, which is longer than what is lent here.
pub fn lent(v: [i64; WIDTH], at: usize) -> usize
    ensures { result ≤ 101 }
{
    match v.get(at) {
        Some(n) => integers::abs(*n).min(101) as usize,
        None => 101,
    }
}

// Whether an answer, with its numbers at the front of `out`, is the row's, which begins after the number at `at`.
pub fn is_answer(g: Given, out: &[i32], row: &[u8], n: Numbers, at: usize) -> bool {
    let refused = row.contains(&b'r');
    match g {
        Given::Refused => refused && n.values.get(at.wrapping_add(1)) == Some(&4),
        Given::Handed(count, ended, handed) => {
            !refused
                && ended == row.contains(&b'y')
                && are(out, n, at.wrapping_add(1), count, handed)
        }
        Given::NotCalled => false,
    }
}

// Whether a count, and the first numbers handed out, are the row's last numbers, from a place on.
fn are(out: &[i32], n: Numbers, from: usize, count: usize, handed: usize) -> bool {
    let first = n.values.get(from).map_or(-1, |z| *z);
    usize::try_from(first).is_ok_and(|z| z == count)
        && n.count == from.wrapping_add(1).wrapping_add(handed)
        && n.values
            .iter()
            .skip(from)
            .skip(1)
            .zip(out)
            .take(handed)
            .all(|(x, y)| *x == i64::from(*y))
}
