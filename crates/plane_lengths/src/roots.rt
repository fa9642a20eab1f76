// The root of a whole number, rounded up.
ghost use Rattle.std.specs.Prelude.{◌≡◌, true, ◌*◌, ◌^◌, ◌≤◌, nat_abs};
ghost use Rattle.plane_lengths.specs.Least.{ceil_sqrt, ceil_div, Roof};
ghost use Rattle.plane_lengths.specs.Rounded.{Length};

// A number that is not below the root of n, or 2³⁰: the smaller, the fewer steps.
fn roof(n: u64) -> u64
    ensures { Roof n result }
{
    if n <= 1073741824 {
        return 32768;
    }
    if n <= 1099511627776 {
        return 1048576;
    }
    if n <= 1125899906842624 {
        33554432
    } else {
        1073741824
    }
}

// Half way from x to n/x, rounded up: a step of Newton's towards √n.
fn halfway(x: u64, n: u64) -> u64 {
    if x == 0 { 1 } else { x / 2 + n / x / 2 + 1 }
}

// h, if n has more than 2·h binary digits, and else 0.
fn beyond(n: u64, h: u64) -> u64
    requires { h ≤ 16 }
    ensures { result ≤ h }
{
    if n >> (2 * h) == 0 { 0 } else { h }
}

// A power of 2 above √n, and at most some two times it.
fn power_above(n: u64) -> u64 {
    let a = beyond(n, 16);
    let m = n >> (2 * a);
    let b = beyond(m, 8);
    let l = m >> (2 * b);
    let c = beyond(l, 4);
    let k = l >> (2 * c);
    let d = beyond(k, 2);
    let e = beyond(k >> (2 * d), 1);
    1 << (a + b + c + d + e + 1)
}

// About √n, from above: nothing is claimed of how near.
fn near_root(n: u64) -> u64 {
    let mut x = power_above(n);
    for _ in 0..5 {
        x = halfway(x, n);
    }
    above(x, n)
}

// The number after x, where x is too small.
fn above(x: u64, n: u64) -> u64 {
    if 1073741824 <= x {
        return x;
    }
    if x * x < n { x + 1 } else { x }
}

// Whether m is the root, rounded up.
fn is_root(n: u64, m: u64) -> bool
    ensures { result ≡ true → ceil_sqrt n ≡ m }
{
    if m == 0 {
        return false;
    }
    if 1073741824 <= m {
        return false;
    }
    if m * m < n {
        return false;
    }
    (m - 1) * (m - 1) < n
}

// The least m below 2³⁰ with n ≤ m², or 2³⁰: near √n, or else by bisection.
pub fn ceil_sqrt(n: u64) -> u64
    ensures { result ≡ ceil_sqrt n }
{
    let g = near_root(n);
    if is_root(n, g) {
        return g;
    }
    let mut lo: u64 = 0;
    let mut hi = roof(n);
    // A while: a bisection, whose steps are not one.
    while lo < hi {
        let mid = lo + (hi - lo) / 2;
        if n <= mid * mid {
            hi = mid;
        } else {
            lo = mid + 1;
        }
    }
    hi
}

// The reach of the disk of radius n: n·√(a² + b²), rounded up.
pub fn length(n: u16, a: i64, b: i64) -> u64
    requires { (n ≤ 100) × (nat_abs a ≤ 5000000) × (nat_abs b ≤ 5000000) }
    ensures { Length n a b result }
{
    let m = n as u64;
    let x = integers::abs(a);
    let y = integers::abs(b);
    ceil_sqrt(m * m * (x * x + y * y))
}

// The least m below 2³⁰ with m²·d ≥ s·f: m² is at least s·f/d, rounded up.
pub fn half_width(s: u32, f: u64, d: u64) -> u64
    requires { (s ≤ 1000000) × (f ≤ 2 ^ 39) × (1 ≤ d) × (d ≤ 2 ^ 63) }
    ensures { result ≡ ceil_sqrt (ceil_div (s * f) d) }
{
    ceil_sqrt((s as u64 * f + (d - 1)) / d)
}
