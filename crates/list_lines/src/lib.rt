// The lines that the list program prints: SPEC, "List program". A hand-out's points, the count at the end, a refusal, an input that is too long.
#![tactic(auto)]

ghost use Rattle.std.specs.Prelude.{◌≡◌, false, ◌+◌, ◌*◌, ◌<◌, ◌≤◌, length, take};
ghost use Rattle.io.specs.Counts.{IsPrefixLen};
ghost use Rattle.text.specs.Append.{Appended};
ghost use Rattle.text.specs.Decimal.{decimal};
ghost use Rattle.integers_wide.specs.Meaning.{size_of};
ghost use Rattle.text.specs.Written.{written, after};
ghost use Rattle.record_kinds.specs.Kinds.{number};
ghost use Rattle.list_lines.specs.Lines.{coordinate_text, head_text, count_text, point_line, lines_of, end_line, refusal_line, too_long_line};

use integers_wide::Size;
use record_kinds::Refusal;
use ring::Point;

// The lines of the first n points, and their length. A line has at most 70 bytes: four numbers of at most 11 and two of at most 10, each with a mark after it.
pub fn put_points(out: &mut [u8], points: &[i32], n: usize, k: u8) -> usize
    requires { (4 * n ≤ length points.now) × (70 * n ≤ length out.old) }
    ensures { Appended out.old 0 (lines_of k (take (4 * n) points.now)) out.new result }
{
    let mut last = Point {
        a: 0,
        b: 0,
        c: 0,
        d: 0,
    };
    let mut head = [0u8; 36];
    let mut length = put_head(&mut head, last);
    let mut at = 0;
    for i in 0..n {
        let v = ring_points::point_at(points, i);
        if begins_row(last, v) {
            length = put_head(&mut head, v);
        }
        at = put_point(out, at, &head[..length], v, k);
        last = v;
    }
    at
}

// Whether a point stands in another row than the one before it, so that its line begins anew.
fn begins_row(u: Point, v: Point) -> bool
    ensures { result ≡ false → head_text u ≡ head_text v }
{
    u.a != v.a || u.b != v.b || u.c != v.c
}

// `a b c `, and its length.
fn put_head(head: &mut [u8], v: Point) -> usize
    requires { length head.old ≡ 36 }
    ensures { Appended head.old 0 (head_text v) head.new result × (result ≤ 36) }
{
    let b = put_coordinate(head, 0, v.a);
    let c = put_coordinate(head, b, v.b);
    put_coordinate(head, c, v.c)
}

// `a b c d e m`, where the head is `a b c `.
fn put_point(out: &mut [u8], at: usize, head: &[u8], v: Point, k: u8) -> usize
    requires { (at + 70 ≤ length out.old) × (head.now ≡ head_text v) × (length head.now ≤ 36) }
    ensures { Appended out.old at (point_line k v) out.new result × (result ≤ at + 70) }
{
    let e = v.exponent(k);
    let m = ring::pulse_count(e);
    let d = text::put_bytes(out, at, head);
    let f = put_last(out, d, v.d);
    let g = put_short(out, f, e as u64, b' ');
    put_short(out, g, m, b'\n')
}

fn put_coordinate(out: &mut [u8], at: usize, z: i32) -> usize
    requires { at + 12 ≤ length out.old }
    ensures { Appended out.old at (coordinate_text z) out.new result × (result ≤ at + 12) }
{
    let end = text::put_signed(out, at, z as i64);
    text::put_byte(out, end, b' ')
}

// The same, sooner for a number of one or two digits.
fn put_last(out: &mut [u8], at: usize, z: i32) -> usize
    requires { at + 12 ≤ length out.old }
    ensures { Appended out.old at (coordinate_text z) out.new result × (result ≤ at + 12) }
{
    let n = integers::abs(z as i64);
    if 99 < n {
        return put_coordinate(out, at, z);
    }
    if z < 0 {
        let digits = text::put_byte(out, at, b'-');
        return put_small(out, digits, n as u8, b' ');
    }
    put_small(out, at, n as u8, b' ')
}

// A number of one or two digits and a mark.
fn put_small(out: &mut [u8], at: usize, n: u8, mark: u8) -> usize
    requires { (n < 100) × (at + 3 ≤ length out.old) }
    ensures { Appended out.old at (count_text n mark) out.new result × (result ≤ at + 3) }
{
    if n < 10 {
        out[at] = 48 + n;
        out[at + 1] = mark;
        return at + 2;
    }
    out[at] = 48 + n / 10;
    out[at + 1] = 48 + n % 10;
    out[at + 2] = mark;
    at + 3
}

// A number of at most ten digits and a mark.
fn put_short(out: &mut [u8], at: usize, n: u64, mark: u8) -> usize
    requires { (n < 10000000000) × (at + 11 ≤ length out.old) }
    ensures { Appended out.old at (count_text n mark) out.new result × (result ≤ at + 11) }
{
    if n < 100 {
        return put_small(out, at, n as u8, mark);
    }
    let end = text::put_unsigned(out, at, n);
    text::put_byte(out, end, mark)
}

fn put_count(out: &mut [u8], at: usize, n: u64, mark: u8) -> usize
    requires { at + 21 ≤ length out.old }
    ensures { Appended out.old at (count_text n mark) out.new result × (result ≤ at + 21) }
{
    let end = text::put_unsigned(out, at, n);
    text::put_byte(out, end, mark)
}

// `end N`.
pub fn put_end(out: &mut [u8], at: usize, n: Size) -> usize
    ensures { (out.new ≡ written out.old at (end_line (size_of n))) × (result ≡ after out.old at (end_line (size_of n))) }
{
    let mut line = [0u8; 64];
    let length = end_line(&mut line, n);
    text::put_bytes(out, at, &line[..length])
}

// `refused R at P`.
pub fn put_refusal(out: &mut [u8], at: usize, f: Refusal, place: usize) -> usize
    ensures { (out.new ≡ written out.old at (refusal_line (number f) place)) × (result ≡ after out.old at (refusal_line (number f) place)) }
{
    let mut line = [0u8; 64];
    let length = refusal_line(&mut line, f, place);
    text::put_bytes(out, at, &line[..length])
}

// `too long`.
pub fn put_too_long(out: &mut [u8], at: usize) -> usize
    ensures { (out.new ≡ written out.old at too_long_line) × (result ≡ after out.old at too_long_line) }
{
    text::put_bytes(out, at, b"too long\n")
}

fn end_line(line: &mut [u8], n: Size) -> usize
    requires { length line.old ≡ 64 }
    ensures { Appended line.old 0 (end_line (size_of n)) line.new result × IsPrefixLen result line.new }
{
    let a = text::put_bytes(line, 0, b"end ");
    let b = text::put_wide(line, a, n);
    text::put_byte(line, b, b'\n')
}

fn refusal_line(line: &mut [u8], f: Refusal, place: usize) -> usize
    requires { length line.old ≡ 64 }
    ensures { Appended line.old 0 (refusal_line (number f) place) line.new result × IsPrefixLen result line.new }
{
    let a = text::put_bytes(line, 0, b"refused ");
    let b = put_number(line, a, f.number());
    let c = text::put_bytes(line, b, b" at ");
    put_count(line, c, place as u64, b'\n')
}

fn put_number(out: &mut [u8], at: usize, n: u8) -> usize
    requires { at + 20 ≤ length out.old }
    ensures { Appended out.old at (decimal n) out.new result × (result ≤ at + 20) }
{
    text::put_unsigned(out, at, n as u64)
}
