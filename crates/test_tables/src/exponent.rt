// Rows `k a b c d e` and `k a b c d e m`.
use test_rows::{Numbers, WIDTH};

// Whether the exponent, and the pulse count if the row has one, are the row's.
pub fn right(row: &[u8]) -> bool {
    let n = Numbers::of(row);
    let v = n.values;
    match n.count {
        6 => is_exponent(v),
        7 => is_exponent(v) && is_pulse_count(v[5], v[6]),
        _ => false,
    }
}

fn is_pulse_count(e: i64, m: i64) -> bool {
    let Some(e) = console_arguments::byte_of(e) else {
        return false;
    };
    ring::pulse_count(u32::from(e)) == integers::abs(m)
}

fn is_exponent(n: [i64; WIDTH]) -> bool {
    let Some((k, v)) = console_arguments::scaled_at(&n, 0) else {
        return false;
    };
    i64::from(v.exponent(k)) == n[5]
}
