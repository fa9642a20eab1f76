// Rows `k u t | length length | answer`: the answer is `refused R`, or U or TUT' with the part handed back, the word of U and that of TUT†.
use crate::past_word;
use gate_words::Part;
use ring::Point;
use test_rows::Numbers;

// What a row asks for: the scale, u and t, and how many bytes of each slice are lent.
#[derive(Clone, Copy)]
struct Asked {
    k: u8,
    u: Point,
    t: Point,
    x: usize,
    y: usize,
}

fn asked_of(row: Numbers) -> Option<Asked> {
    let n = row.values;
    let (k, u) = console_arguments::scaled_at(&n, 0)?;
    let t = console_arguments::point_at(&n, 5)?;
    let x = console_arguments::byte_of(n[9])?;
    let y = console_arguments::byte_of(n[10])?;
    Some(Asked {
        k,
        u,
        t,
        x: usize::from(x),
        y: usize::from(y),
    })
}

// Whether the words, or the refusal, are those of the row that the text begins with.
pub fn right(row: &[u8], text: &[u8]) -> bool {
    let n = Numbers::of(row);
    let Some(a) = asked_of(n) else {
        return false;
    };
    let mut first = [b'.'; 128];
    let mut second = [b'.'; 128];
    let p = answered(a, &mut first, &mut second);
    match p {
        Some(p) if p.number == 0 => {
            n.count == 11
                && behind_words(row, p, &first, &second).is_some_and(|behind| behind.is_empty())
        }
        Some(p) => {
            n.count == 12
                && i64::from(p.number) == n.values[11]
                && refused(text, p, &first, &second)
        }
        None => false,
    }
}

// The call's answer, where the slices have the bytes that are lent. The slices hold dots, and their first x and y bytes are lent.
fn answered<'a>(a: Asked, first: &'a mut [u8], second: &'a mut [u8]) -> Option<Part> {
    let x = a.x;
    let y = a.y;
    if first.len() < x || second.len() < y {
        return None;
    }
    Some(gate_words::spell_part(a.k, a.u, a.t, &mut first[..x], &mut second[..y]))
}

// Whether a refusal stands behind the second bar of a text, and more behind it; nothing was written, and nothing is handed back.
fn refused(text: &[u8], p: Part, first: &[u8], second: &[u8]) -> bool {
    behind_two_bars(text)
        .strip_prefix(b" refused ")
        .is_some_and(|more| !more.is_empty())
        && gate_words::chosen(p, first, second).is_empty()
        && filled(first).is_empty()
        && filled(second).is_empty()
}

// What stands behind the part handed back and both words, where a row has these behind its second bar.
fn behind_words<'a>(row: &'a [u8], p: Part, first: &[u8], second: &[u8]) -> Option<&'a [u8]> {
    let name = if p.second {
        b"TUT' ".as_slice()
    } else {
        b"U ".as_slice()
    };
    let said = behind_two_bars(row).strip_prefix(b" ")?;
    let said = past_word(
        said.strip_prefix(name)?,
        gate_words::chosen(p, first, second),
    )?;
    let said = past_word(said.strip_prefix(b" | ")?, filled(first))?;
    past_word(said.strip_prefix(b" | ")?, filled(second))
}

// What stands behind the second bar of a text; nothing where it has fewer.
fn behind_two_bars(text: &[u8]) -> &[u8] {
    text.splitn(3, |b| *b == b'|').nth(2).unwrap_or(&[])
}

// What is written into a slice of dots: up to the last byte that is none.
fn filled(s: &[u8]) -> &[u8] {
    match s.iter().rposition(|b| *b != b'.') {
        Some(last) => &s[..=last],
        None => &[],
    }
}
