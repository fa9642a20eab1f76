// What a line of the console is answered, and the line of text that says it (SPEC, "Console").
#![tactic(auto)]

ghost use Rattle.std.specs.Prelude.{◌≡◌};

use integers_wide::Size;
use operator::{Operator, WidePoint};
use ring::Point;

// A line that is not one of the commands', a refusal by its number, or what follows `ok`.
#[derive(Clone, Copy)]
pub enum Line {
    Bad,
    Refused(u8),
    Good(Value),
}

// What follows `ok`.
#[derive(Clone, Copy)]
pub enum Value {
    Nothing,
    Says(bool),
    Unsigned(u64),
    Pair(u64, u64),
    One(i64),
    Two(i64, i64),
    Four(WidePoint),
    Eight(WidePoint, WidePoint),
    // A scale and two points.
    Pattern(u8, WidePoint, WidePoint),
    // A number, and yes or no.
    Told(u64, bool),
    // What the desk reads on a sheet: the bytes taken, the scale, u, t and the ticks.
    Desk(usize, u8, WidePoint, WidePoint, u32),
    // What the crew reads there: the bytes taken, m and the ticks.
    Crew(usize, u64, u32),
    // A hand-out: the count, whether it is the end, and how many numbers were handed out.
    Handed(usize, bool, usize),
}

// The session that a line leaves, and its answer.
#[derive(Clone, Copy)]
pub struct Reply<S> {
    pub session: S,
    pub line: Line,
}

impl<S> Reply<S> {
    // A session that stays.
    pub fn stays(session: S, line: Line) -> Reply<S>
        ensures { (result.session ≡ session) × (result.line ≡ line) }
    {
        Reply { session, line }
    }
}

// A point's four numbers.
pub fn of_point(v: Point) -> Value {
    Value::Four(widened(v))
}

// An operator's eight numbers: G(1), then G(i).
pub fn of_operator(g: Operator) -> Value {
    Value::Eight(column(g.a, g.b, g.c, g.d), column(g.ai, g.bi, g.ci, g.di))
}

// A scale and the numbers of two points.
pub fn of_pattern(k: u8, u: Point, t: Point) -> Value {
    Value::Pattern(k, widened(u), widened(t))
}

// A sheet as the desk reads it: the bytes taken and every field.
pub fn of_desk(taken: usize, k: u8, u: Point, t: Point, ticks: u32) -> Value {
    Value::Desk(taken, k, widened(u), widened(t), ticks)
}

// A hand-out of pairs: the count, and whether it is the end.
pub fn of_pairs(count: usize, ended: bool) -> Value {
    Value::Handed(count, ended, count.wrapping_mul(2))
}

// A hand-out of points.
pub fn of_points(count: usize, ended: bool) -> Value {
    Value::Handed(count, ended, count.wrapping_mul(4))
}

// A hand-out of points with their masks, five numbers each.
pub fn of_masked(count: usize, ended: bool) -> Value {
    Value::Handed(count, ended, count.wrapping_mul(5))
}

// The line of an answer, and its length; the numbers of a hand-out are the first ones of `numbers`.
pub fn put(out: &mut [u8], l: Line, numbers: &[i32]) -> usize {
    match l {
        Line::Bad => put_bad(out),
        Line::Refused(number) => put_refused(out, number),
        Line::Good(v) => good(out, v, numbers),
    }
}

// The line of `Line::Bad`.
pub fn put_bad(out: &mut [u8]) -> usize {
    text::put_bytes(out, 0, b"bad line\n")
}

// The line of `Line::Refused`.
pub fn put_refused(out: &mut [u8], number: u8) -> usize {
    let at = text::put_bytes(out, 0, b"refused");
    let at = unsigned(out, at, u64::from(number));
    end(out, at)
}

// The line of a tally: its 21 counts.
pub fn put_counts(out: &mut [u8], counts: [Size; 21]) -> usize {
    let mut at = text::put_bytes(out, 0, b"ok");
    for n in counts.iter() {
        at = text::put_byte(out, at, b' ');
        at = text::put_wide(out, at, *n);
    }
    end(out, at)
}

// The line of a byte sequence: `ok` and its digits, or `ok` alone for none.
pub fn put_hexed(out: &mut [u8], bytes: &[u8]) -> usize {
    put_word(out, bytes, |out, at, word| text_hex::put_hex(out, at, word))
}

// The line of a word: `ok` and its letters, or `ok` alone for none.
pub fn put_lettered(out: &mut [u8], word: &[u8]) -> usize {
    put_word(out, word, |out, at, word| text::put_bytes(out, at, word))
}

// The line of a word, as `put` writes its bytes: `ok` and the word, or `ok` alone for none.
fn put_word<F: Fn(&mut [u8], usize, &[u8]) -> usize>(out: &mut [u8], word: &[u8], put: F) -> usize
    requires { F.IsAlwaysCallable put }
{
    let at = text::put_bytes(out, 0, b"ok");
    if word.is_empty() {
        return end(out, at);
    }
    let at = text::put_byte(out, at, b' ');
    let at = put(out, at, word);
    end(out, at)
}

fn good(out: &mut [u8], v: Value, numbers: &[i32]) -> usize {
    let at = text::put_bytes(out, 0, b"ok");
    let at = put_value(out, at, v, numbers);
    end(out, at)
}

fn put_value(out: &mut [u8], at: usize, v: Value, numbers: &[i32]) -> usize {
    match v {
        Value::Says(yes) => yes_or_no(out, at, yes),
        Value::Unsigned(n) => unsigned(out, at, n),
        Value::Pair(m, n) => pair(out, at, m, n),
        Value::Told(n, yes) => told(out, at, n, yes),
        Value::Desk(taken, k, u, t, ticks) => desk(out, at, taken, k, u, t, ticks),
        Value::Crew(taken, m, ticks) => crew(out, at, taken, m, ticks),
        Value::Handed(count, ended, n) => handed(out, at, count, ended, numbers, n),
        _ => put_signed(out, at, v),
    }
}

// The values of signed numbers.
fn put_signed(out: &mut [u8], at: usize, v: Value) -> usize {
    match v {
        Value::One(z) => signed(out, at, z),
        Value::Two(p, q) => two(out, at, p, q),
        Value::Four(w) => four(out, at, w),
        Value::Eight(v, w) => eight(out, at, v, w),
        Value::Pattern(k, u, t) => pattern(out, at, k, u, t),
        _ => at,
    }
}

fn signed(out: &mut [u8], at: usize, n: i64) -> usize {
    let at = text::put_byte(out, at, b' ');
    text::put_signed(out, at, n)
}

fn unsigned(out: &mut [u8], at: usize, n: u64) -> usize {
    let at = text::put_byte(out, at, b' ');
    text::put_unsigned(out, at, n)
}

fn pair(out: &mut [u8], at: usize, m: u64, n: u64) -> usize {
    let at = unsigned(out, at, m);
    unsigned(out, at, n)
}

fn yes_or_no(out: &mut [u8], at: usize, yes: bool) -> usize {
    if yes {
        text::put_bytes(out, at, b" yes")
    } else {
        text::put_bytes(out, at, b" no")
    }
}

fn two(out: &mut [u8], at: usize, p: i64, q: i64) -> usize {
    let at = signed(out, at, p);
    signed(out, at, q)
}

fn four(out: &mut [u8], at: usize, w: WidePoint) -> usize {
    let at = two(out, at, w.a, w.b);
    two(out, at, w.c, w.d)
}

fn eight(out: &mut [u8], at: usize, v: WidePoint, w: WidePoint) -> usize {
    let at = four(out, at, v);
    four(out, at, w)
}

fn column(a: i16, b: i16, c: i16, d: i16) -> WidePoint {
    WidePoint {
        a: i64::from(a),
        b: i64::from(b),
        c: i64::from(c),
        d: i64::from(d),
    }
}

fn pattern(out: &mut [u8], at: usize, k: u8, u: WidePoint, t: WidePoint) -> usize {
    let at = unsigned(out, at, u64::from(k));
    eight(out, at, u, t)
}

fn widened(v: Point) -> WidePoint {
    WidePoint {
        a: i64::from(v.a),
        b: i64::from(v.b),
        c: i64::from(v.c),
        d: i64::from(v.d),
    }
}

fn told(out: &mut [u8], at: usize, n: u64, yes: bool) -> usize {
    let at = unsigned(out, at, n);
    yes_or_no(out, at, yes)
}

fn desk(
    out: &mut [u8],
    at: usize,
    taken: usize,
    k: u8,
    u: WidePoint,
    t: WidePoint,
    ticks: u32,
) -> usize {
    let at = unsigned(out, at, taken as u64);
    let at = pattern(out, at, k, u, t);
    unsigned(out, at, u64::from(ticks))
}

fn crew(out: &mut [u8], at: usize, taken: usize, m: u64, ticks: u32) -> usize {
    let at = pair(out, at, taken as u64, m);
    unsigned(out, at, u64::from(ticks))
}

// A count, the end, and the first n numbers.
fn handed(
    out: &mut [u8],
    at: usize,
    count: usize,
    ended: bool,
    numbers: &[i32],
    n: usize,
) -> usize {
    let mut at = told(out, at, count as u64, ended);
    for z in numbers.iter().take(n) {
        at = signed(out, at, i64::from(*z));
    }
    at
}

fn end(out: &mut [u8], at: usize) -> usize {
    text::put_byte(out, at, b'\n')
}
