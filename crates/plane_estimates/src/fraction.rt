// How often a half plane counts, as a fraction: a guess, of which only sizes are claimed.
ghost use Rattle.std.specs.Prelude.{◌^◌, ◌≤◌, nat_abs};
ghost use Rattle.plane_estimates.specs.Sizes.{FractionSize};

use plane_lengths::products::{inner, product};
use plane_lengths::roots::ceil_sqrt;

// p/q: how often the half plane counts.
#[derive(Clone, Copy)]
pub struct Fraction {
    pub p: u64,
    pub q: u64,
}

// |u·y − v·x|.
fn cross(u: i16, v: i16, x: i16, y: i16) -> u64
    ensures { result ≤ 2 ^ 31 }
{
    integers::abs(product(u, y as i32) - product(v, x as i32))
}

// The larger of two sizes.
fn larger(x: i16, y: i16) -> u64
    ensures { result ≤ 32768 }
{
    u64::from(x.unsigned_abs().max(y.unsigned_abs()))
}

// About a/b.
fn divided(a: u64, b: u64) -> u64
    ensures { result ≤ a }
{
    if b == 0 { a } else { a / b }
}

// n or 0.
fn kept(is: bool, n: u64) -> u64
    ensures { result ≤ n }
{
    if is { n } else { 0 }
}

// 256 times (c·w/√(g − w²) − d)/f, the best multiple of the half plane: f = |z|², g = n²·f, c and d the products of (u, v) with z.
fn multiple(minus: bool, w: u64, g: u64, f: u64, c: u64, d: i64) -> u64
    requires { (w ≤ 1000000) × (g ≤ 2 ^ 45) × (c ≤ 2 ^ 31) × (nat_abs d ≤ 2 ^ 31) }
    ensures { result ≤ 2 ^ 40 }
{
    if g <= w * w {
        return if minus { 0 } else { 1099511627776 };
    }
    let t = divided(c * w * 4096, ceil_sqrt((g - w * w) * 256));
    let e = 256 * integers::abs(d);
    let up = kept(!minus, t) + kept(d < 0, e);
    let down = kept(minus, t) + kept(0 <= d, e);
    if up <= down {
        return 0;
    }
    let r = divided(up - down, f);
    if r < 1099511627776 {
        r + 1
    } else {
        1099511627776
    }
}

// About g/256 as p/q, so that q·(u, v) + p·z has parts of some 2²²: b and z are the sizes of (u, v) and of z.
fn fraction_of(g: u64, b: u64, z: u64) -> Fraction
    requires { (g ≤ 2 ^ 40) × (b ≤ 32768) × (z ≤ 32768) }
    ensures { FractionSize result }
{
    let l = 256 * b + g * z;
    if l <= 4194304 {
        return Fraction { p: g, q: 256 };
    }
    let q = 1073741824 / l;
    if q == 0 {
        return Fraction {
            p: divided(4194304 - b, z),
            q: 1,
        };
    }
    Fraction {
        p: g * q / 256 + 1,
        q,
    }
}

// The p/q of the tangent at the end of the chord that x·X + y·Y = w has in the disk of radius n.
pub fn at_chord(n: u16, x: i16, y: i16, w: i32, u: i16, v: i16) -> Fraction
    requires { (n ≤ 100) × (nat_abs w ≤ 1000000) }
    ensures { FractionSize result }
{
    let m = n as u64;
    let h = integers::abs(w as i64);
    let f = integers::abs(inner(x, y, x, y));
    let g = multiple(w < 0, h, m * m * f, f, cross(u, v, x, y), inner(u, v, x, y));
    fraction_of(g, larger(u, v), larger(x, y))
}
