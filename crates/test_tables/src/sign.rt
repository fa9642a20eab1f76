// Rows `p q sign`.
use ring::Sign;
use test_rows::Numbers;

// Whether the sign of p + q√2 is the row's.
pub fn right(row: &[u8]) -> bool {
    let n = Numbers::of(row);
    let v = n.values;
    n.count == 3 && number(ring_signs::sign_of(v[0], v[1])) == v[2]
}

fn number(s: Sign) -> i64 {
    match s {
        Sign::Minus => -1,
        Sign::Zero => 0,
        Sign::Plus => 1,
    }
}
