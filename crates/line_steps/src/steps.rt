// The steps of Algorithm 2.2 (the Note) that come before a and b: the shift by α₀, then the scaling by a power of λ = 1 + √2.
// `shift-holds` and `scale-holds` say that each keeps the pairs, for every α₀ and every power, so what is chosen here is a matter of speed alone.
ghost use Rattle.std.specs.Prelude.{◌≡◌, ◌≤◌, pos, nat_abs, ◌-ℤ◌, ◌*ℤ◌};
ghost use Rattle.std.specs.Int.Signed.{le_z};
ghost use Rattle.ring.specs.RootTwo.{◌⊟◌, ◌⊠◌, num};
ghost use Rattle.ring.specs.RootTwo.Order.{nonneg};
ghost use Rattle.line_rows.specs.Row.{at};
ghost use Rattle.line_rows.specs.Steps.{shift_of, times_of, Even};
ghost use Rattle.line_steps.specs.Strips.{Ranged};
ghost use Rattle.line_steps.specs.Narrow.{end_of};
ghost use Rattle.line_steps.specs.Scaled.{Chosen};
ghost use Rattle.line_steps.specs.Sized.{Sized, Ends, whole, shifted, scaled, size_of_unit};

use line_rows::Band;
use ring::RootTwo;
use ring_surds::{combined, conjugate, is_nonneg, product};

// Step 2: I − α₀, or J − α₀•.
pub(crate) fn shift(s: Band, w: RootTwo) -> Band
    requires { Ends whole s × Sized whole w }
    ensures { result ≡ shift_of s w }
{
    Band {
        m: s.m,
        lo: combined(1, s.lo, -s.m, w),
        hi: combined(1, s.hi, -s.m, w),
    }
}

// Whether a side is at most an eighth wide: 8·(hi − lo) ≤ m.
pub(crate) fn is_thin(s: Band) -> bool
    requires { Ranged s }
    ensures { result ≡ le_z (pos 8 *ℤ (s.hi.p -ℤ s.lo.p)) s.m }
{
    8 * (s.hi.p - s.lo.p) <= s.m
}

// Internal step 4: n = −2k for the greatest k up to 5 at which the strip times (3 + 2√2)^k is at most 2 wide, or 0.
pub(crate) fn unit(s: Band, thin: bool) -> RootTwo
    requires { Ends shifted s }
    ensures { Chosen s thin result }
{
    if !thin {
        return power(0);
    }
    for k in (1..=5).rev() {
        let u = power(k);
        if is_within(scale(s, conjugate(u)), 2) {
            return u;
        }
    }
    power(0)
}

// Internal step 5: λ^(−2k) = (3 − 2√2)^k for k up to 5, and the last one past it. Even powers turn no strip.
pub(crate) fn power(k: u64) -> RootTwo
    ensures { Even result × Sized size_of_unit result × (k ≡ 0 → result ≡ at (pos 1) (pos 0)) }
{
    match k {
        0 => RootTwo { p: 1, q: 0 },
        1 => RootTwo { p: 3, q: -2 },
        2 => RootTwo { p: 17, q: -12 },
        3 => RootTwo { p: 99, q: -70 },
        4 => RootTwo { p: 577, q: -408 },
        _ => RootTwo { p: 3363, q: -2378 },
    }
}

// Internal step 5: λ^n I, or (λ•)^n J, for an even n.
pub(crate) fn scale(s: Band, u: RootTwo) -> Band
    requires { Ends shifted s × Sized size_of_unit u }
    ensures { result ≡ times_of s u }
{
    Band {
        m: s.m,
        lo: product(u, s.lo),
        hi: product(u, s.hi),
    }
}

// Internal step 6: an end of the strip of rows, u·(k − x) + y.
pub(crate) fn end(u: RootTwo, k: i64, x: RootTwo, y: RootTwo) -> RootTwo
    requires { Sized size_of_unit u × (nat_abs k ≤ shifted) × Sized shifted x × Sized scaled y }
    ensures { result ≡ end_of u k x y }
{
    let d = combined(1, RootTwo { p: k, q: 0 }, -1, x);
    let e = product(u, d);
    combined(1, e, 1, y)
}

// Whether hi − lo ≤ k·m.
pub(crate) fn is_within(s: Band, k: i64) -> bool
    requires { Ends scaled s × (nat_abs k ≤ 2) }
    ensures { result ≡ nonneg (num k ⊠ num s.m ⊟ (s.hi ⊟ s.lo)) }
{
    let d = combined(-1, s.hi, 1, s.lo);
    let e = combined(k, RootTwo { p: s.m, q: 0 }, 1, d);
    is_nonneg(e)
}
