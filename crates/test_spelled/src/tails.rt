// Rows `TAIL | k a b c d`: a matrix of points over √2^k, and its tail.
use crate::past_word;
use gate_theory::State;
use ring::Point;
use test_rows::Numbers;

// Whether the tail of the row's matrix is the row's.
pub fn right(row: &[u8]) -> bool {
    let n = Numbers::of(row);
    if n.count != 17 {
        return false;
    }
    let Some(x) = state_of(n) else {
        return false;
    };
    is_tail(row, x)
}

fn state_of(row: Numbers) -> Option<State> {
    let n = row.values;
    let u = console_arguments::point_at(&n, 1)?;
    let t = console_arguments::point_at(&n, 9)?;
    let l = phase_of(row, u, t);
    if l < 8 {
        let k = if n[0] == 0 { 0 } else { 1 };
        return Some(State { k, u, t, l });
    }
    None
}

// The phase of a row's matrix with the first column u, t; 8 where it has none.
fn phase_of(row: Numbers, u: Point, t: Point) -> u32 {
    let n = row.values;
    let Some(b) = console_arguments::point_at(&n, 5) else {
        return 8;
    };
    let Some(d) = console_arguments::point_at(&n, 13) else {
        return 8;
    };
    phase(u, t, b, d)
}

// Whether a row begins with the tail of a state, and a bar.
fn is_tail(row: &[u8], x: State) -> bool {
    let w = gates::tail_word(x);
    let letters = w.letters;
    let len = w.len;
    len <= 128 && past_word(row, &letters[..len]).is_some_and(|behind| behind.starts_with(b" | "))
}

// The l with b = −ω^l t† and d = ω^l u†; 8 where there is none.
fn phase(u: Point, t: Point, b: Point, d: Point) -> u32 {
    let mut x = minus(dagger(t));
    let mut y = dagger(u);
    for l in 0..8 {
        if same(x, b) && same(y, d) {
            return l;
        }
        x = turn(x);
        y = turn(y);
    }
    8
}

// −z, of −1, 0 and 1; 0 of any other.
fn opposite(z: i32) -> i32 {
    match z {
        1 => -1,
        -1 => 1,
        _ => 0,
    }
}

fn minus(v: Point) -> Point {
    Point {
        a: opposite(v.a),
        b: opposite(v.b),
        c: opposite(v.c),
        d: opposite(v.d),
    }
}

fn dagger(v: Point) -> Point {
    Point {
        a: opposite(v.c),
        b: opposite(v.b),
        c: opposite(v.a),
        d: v.d,
    }
}

fn turn(v: Point) -> Point {
    Point {
        a: v.b,
        b: v.c,
        c: v.d,
        d: opposite(v.a),
    }
}

fn same(v: Point, w: Point) -> bool {
    [v.a, v.b, v.c, v.d] == [w.a, w.b, w.c, w.d]
}
