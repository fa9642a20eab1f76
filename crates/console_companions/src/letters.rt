// `word K`, the four numbers of u, those of t, `LENGTH LENGTH`: gate words.
ghost use Rattle.std.specs.Prelude.{◌≡◌, length};

use console_replies::put_bad;
use ring::Point;
use text_words::Numbers;

// The line that answers `word`, and its length; the arguments begin at `from`.
pub fn put_words(out: &mut [u8], line: &[u8], from: usize) -> usize {
    let n = text_words::numbers_from(line, from);
    if n.good && n.count == 11 {
        put_spelled(out, n)
    } else {
        put_bad(out)
    }
}

// The scale, u and t, and how many letters of each slice are lent.
#[derive(Clone, Copy)]
struct Asked {
    k: u8,
    u: Point,
    t: Point,
    l: usize,
    m: usize,
}

fn asked_of(n: Numbers) -> Option<Asked> {
    let w = n.values;
    let (k, u) = console_arguments::scaled_at(&w, 0)?;
    let t = console_arguments::point_at(&w, 5)?;
    let l = text_words::lent(w[9])?;
    let m = text_words::lent(w[10])?;
    Some(Asked { k, u, t, l, m })
}

fn put_spelled(out: &mut [u8], n: Numbers) -> usize {
    let Some(a) = asked_of(n) else {
        return put_bad(out);
    };
    let mut first = letter_buffer();
    let mut second = letter_buffer();
    let mut part = letter_buffer();
    spelled(out, a, &mut first, &mut second, &mut part)
}

// The letters that a line may lend, each shown as a dot until it is written.
fn letter_buffer() -> [u8; 4096]
    ensures { 4096 ≡ length result }
{
    [b'.'; 4096]
}

fn spelled<'a>(
    out: &mut [u8],
    a: Asked,
    first: &'a mut [u8],
    second: &'a mut [u8],
    part: &'a mut [u8],
) -> usize {
    let l = a.l;
    let m = a.m;
    if first.len() < l || second.len() < m {
        return put_bad(out);
    }
    let c = gate_word_part::word_part(a.k, a.u, a.t, &mut first[..l], &mut second[..m], part);
    if c.number != 0 {
        return console_replies::put_refused(out, c.number);
    }
    let at = text::put_bytes(out, 0, b"ok");
    let at = front(out, at, part, c.len);
    answered(out, at, first, second, l, m)
}

// Both slices, after the part handed back.
fn answered<'a>(
    out: &mut [u8],
    at: usize,
    first: &'a [u8],
    second: &'a [u8],
    l: usize,
    m: usize,
) -> usize {
    let at = front(out, at, first, l);
    let at = front(out, at, second, m);
    text::put_byte(out, at, b'\n')
}

// The first n letters of a slice after a space, or a dash for none.
fn front(out: &mut [u8], at: usize, letters: &[u8], n: usize) -> usize {
    let at = text::put_byte(out, at, b' ');
    match letters.get(..n) {
        Some([]) | None => text::put_byte(out, at, b'-'),
        Some(word) => text::put_bytes(out, at, word),
    }
}
