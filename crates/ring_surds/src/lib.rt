// Sums, products, conjugates and signs of Z[√2] in 64 bits, and powers of √2, each within the size that its `requires` states.
#![tactic(auto)]

ghost use Rattle.std.specs.Prelude.{◌≡◌, ◌+◌, ◌<◌, ◌≤◌, ◌^◌, nat_abs, ◌+ℤ◌, ◌-ℤ◌, ◌*ℤ◌};
ghost use Rattle.ring.specs.RootTwo.{◌⊞◌, ◌⊟◌, ◌⊠◌, neg, conj, num};
ghost use Rattle.ring.specs.RootTwo.Order.{nonneg};
ghost use Rattle.ring.specs.RootTwo.Power.{√2^};
ghost use Rattle.ring.specs.RootTwo.Sized.{Sized, Room, Products};

use ring::{RootTwo, Sign};
use ring_signs::sign_of;

// a·b + c·d.
pub fn dot(a: i64, b: i64, c: i64, d: i64) -> i64
    requires { nat_abs (a *ℤ b) + nat_abs (c *ℤ d) < 2 ^ 63 }
    ensures { result ≡ a *ℤ b +ℤ c *ℤ d }
{
    a * b + c * d
}

// m·x − n·y.
fn gap(m: i64, x: i64, n: i64, y: i64) -> i64
    requires { nat_abs (m *ℤ x) + nat_abs (n *ℤ y) < 2 ^ 63 }
    ensures { result ≡ m *ℤ x -ℤ n *ℤ y }
{
    m * x - n * y
}

// m·x + n·y.
pub fn combined(m: i64, x: RootTwo, n: i64, y: RootTwo) -> RootTwo
    requires { Room m x n y }
    ensures { result ≡ num m ⊠ x ⊞ num n ⊠ y }
{
    RootTwo {
        p: dot(m, x.p, n, y.p),
        q: dot(m, x.q, n, y.q),
    }
}

// m·x − n·y.
pub fn offset(m: i64, x: RootTwo, n: i64, y: RootTwo) -> RootTwo
    requires { Room m x n y }
    ensures { result ≡ num m ⊠ x ⊟ num n ⊠ y }
{
    RootTwo {
        p: gap(m, x.p, n, y.p),
        q: gap(m, x.q, n, y.q),
    }
}

// x·y.
pub fn product(x: RootTwo, y: RootTwo) -> RootTwo
    requires { Products x y }
    ensures { result ≡ x ⊠ y }
{
    RootTwo {
        p: dot(x.p, y.p, 2, x.q * y.q),
        q: dot(x.p, y.q, x.q, y.p),
    }
}

// −x.
pub fn opposite(x: RootTwo) -> RootTwo
    requires { Sized (2 ^ 60) (2 ^ 60) x }
    ensures { result ≡ neg x }
{
    RootTwo { p: -x.p, q: -x.q }
}

// p − q√2.
pub fn conjugate(x: RootTwo) -> RootTwo
    requires { Sized (2 ^ 60) (2 ^ 60) x }
    ensures { result ≡ conj x }
{
    RootTwo { p: x.p, q: -x.q }
}

// Whether 0 ≤ x.
pub fn is_nonneg(x: RootTwo) -> bool
    ensures { result ≡ nonneg x }
{
    match sign_of(x.p, x.q) {
        Sign::Minus => false,
        Sign::Zero => true,
        Sign::Plus => true,
    }
}

// √2^k.
pub fn power(k: u8) -> RootTwo
    requires { k ≤ 125 }
    ensures { result ≡ √2^ k }
{
    let h = 1u64 << (k / 2);
    if k % 2 == 0 {
        RootTwo { p: h as i64, q: 0 }
    } else {
        RootTwo { p: 0, q: h as i64 }
    }
}
