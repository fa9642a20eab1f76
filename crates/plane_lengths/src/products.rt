// Products and sums of whole numbers of the plane, each within the size that its `requires` states.
ghost use Rattle.std.specs.Prelude.{◌≡◌, ◌^◌, ◌≤◌, ◌<◌, leb, pos, nat_abs, ◌+ℤ◌, ◌-ℤ◌, ◌*ℤ◌};
ghost use Rattle.plane_lengths.specs.Least.{max_z};
ghost use Rattle.plane_lengths.specs.Products.{adjugate, touches};
ghost use Rattle.plane_lengths.specs.Rounded.{Quotient};

// A quotient's limit, 2³¹.
const LIMIT: i64 = 2147483648;

// No quotient is less.
const LEAST: i64 = -LIMIT;

// u·z.
pub fn product(u: i16, z: i32) -> i64
    ensures { result ≡ u *ℤ z }
{
    u as i64 * z as i64
}

// u·v·a.
pub fn term(u: i16, v: i16, a: i32) -> i64
    ensures { result ≡ u *ℤ v *ℤ a }
{
    u as i64 * v as i64 * a as i64
}

// u²r − 2uvq + v²p: the adjugate of the form pX² + 2qXY + rY².
pub fn adjugate(p: u16, q: i16, r: u16, u: i16, v: i16) -> i64
    ensures { result ≡ adjugate (pos p) q (pos r) u v }
{
    term(u, u, r as i32) - 2 * term(u, v, q as i32) + term(v, v, p as i32)
}

// The greater of u·l and u·h.
pub fn farther(u: i16, l: i32, h: i32) -> i64
    ensures { result ≡ max_z (u *ℤ l) (u *ℤ h) }
{
    let a = product(u, l);
    let b = product(u, h);
    // No max: of what it promises the proof of max_z does not close.
    if a <= b { b } else { a }
}

// n·z.
pub fn times(n: u16, z: i16) -> i64
    ensures { result ≡ pos n *ℤ z }
{
    n as i64 * z as i64
}

// 2·z.
pub fn twice(z: i64) -> i64
    requires { nat_abs z < 2 ^ 62 }
    ensures { result ≡ pos 2 *ℤ z }
{
    2 * z
}

// u·x + v·y.
pub fn inner(u: i16, v: i16, x: i16, y: i16) -> i64
    ensures { (result ≡ u *ℤ x +ℤ v *ℤ y) × (nat_abs result ≤ 2 ^ 31) }
{
    product(u, x as i32) + product(v, y as i32)
}

// Whether x·X + y·Y at least w leaves one point of the disk of radius n at most: w is at least n times the length of (x, y).
pub fn touches(n: u16, x: i16, y: i16, w: i32) -> bool
    ensures { result ≡ touches (pos n) x y w }
{
    if w < 1 {
        return false;
    }
    let m = n as u64;
    let h = integers::abs(w as i64);
    let f = integers::abs(inner(x, y, x, y));
    m * m * f <= h * h
}

// n²·t.
pub fn multiplied(n: u16, t: i64) -> i64
    requires { (n ≤ 100) × (nat_abs t ≤ 2 ^ 31) }
    ensures { (result ≡ pos n *ℤ pos n *ℤ t) × (nat_abs result ≤ 2 ^ 45) }
{
    n as i64 * n as i64 * t
}

// q·u + p·z.
pub fn along(q: u64, u: i16, p: u64, z: i16) -> i64
    requires { (q ≤ 256) × (p ≤ 2 ^ 41) }
    ensures { result ≡ pos q *ℤ u +ℤ pos p *ℤ z }
{
    q as i64 * u as i64 + p as i64 * z as i64
}

// Whether a sum is short enough for a length.
pub fn is_short(a: i64) -> bool
    ensures { result ≡ leb (nat_abs a) 5000000 }
{
    integers::abs(a) <= 5000000
}

// m − p·w.
pub fn less(m: u64, p: u64, w: i32) -> i64
    requires { (m ≤ 2 ^ 30) × (p ≤ 2 ^ 41) × (nat_abs w ≤ 1000000) }
    ensures { result ≡ pos m -ℤ pos p *ℤ w }
{
    m as i64 - p as i64 * w as i64
}

// t/q, rounded up, and −2³¹ for less.
pub fn quotient(t: i64, q: u64) -> i64
    requires { (nat_abs t ≤ 2 ^ 62) × (1 ≤ q) × (q ≤ 1000000) }
    ensures { Quotient t q result }
{
    let s = t + LIMIT * q as i64;
    if s < 0 {
        return LEAST;
    }
    ((s as u64 + (q - 1)) / q) as i64 - LIMIT
}
