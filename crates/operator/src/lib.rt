// Grid operators: SPEC, "Operators". The test, the image of a point, the inverse.
#![tactic(auto)]

ghost use Rattle.std.specs.Prelude.{◌≡◌, ◌≤◌, nat_abs, pos, ◌*ℤ◌, Err};
ghost use Rattle.operator.specs.Operator.{refusal, identity, in_range, even_parity, special, Tests, image_of, wide};
ghost use Rattle.operator.specs.Inverse.{adjugate, times, Inverts};
ghost use Rattle.operator.specs.Accepted.{Small};
ghost use Rattle.operator.specs.Bounded.{Near};
ghost use Rattle.operator.specs.Narrow.{narrowed};

use ring::Point;

mod coordinates;
mod determinant;
mod sums;

// G(1) as (a, b, c, d) and G(i) as (a', b', c', d') of SPEC, "Operators".
#[derive(Clone, Copy)]
pub struct Operator {
    pub a: i16,
    pub b: i16,
    pub c: i16,
    pub d: i16,
    pub ai: i16,
    pub bi: i16,
    pub ci: i16,
    pub di: i16,
}

// Why an operator is refused; its number is that of SPEC, "Refusals".
#[derive(Clone, Copy)]
pub enum Refusal {
    OutOfRange,
    OddParity,
    NotSpecial,
}

impl Refusal {
    pub fn number(self) -> u8
        ensures { result ≡ refusal (Err self) }
    {
        match self {
            Refusal::OutOfRange => refusals::OUT_OF_RANGE,
            Refusal::OddParity => refusals::ODD_PARITY,
            Refusal::NotSpecial => refusals::NOT_SPECIAL,
        }
    }
}

// A point of four 64-bit numbers.
#[derive(Clone, Copy)]
pub struct WidePoint {
    pub a: i64,
    pub b: i64,
    pub c: i64,
    pub d: i64,
}

impl WidePoint {
    // The point with 32-bit numbers, where all four fit.
    #[tactic(auto, unfolding(crate::specs::Narrow::narrowed))]
    pub fn narrow(self) -> Option<Point>
        ensures { result ≡ narrowed self }
    {
        let a = integers::to_i32(self.a)?;
        let b = integers::to_i32(self.b)?;
        let c = integers::to_i32(self.c)?;
        let d = integers::to_i32(self.d)?;
        Some(Point { a, b, c, d })
    }
}

impl Operator {
    // The identity.
    pub const IDENTITY: Operator = Operator {
        a: 0,
        b: 0,
        c: 0,
        d: 1,
        ai: 0,
        bi: 1,
        ci: 0,
        di: 0,
    };

    // The identity, from a call.
    pub fn identity() -> Operator
        ensures { result ≡ identity }
    {
        Operator::IDENTITY
    }

    // The test: ranges, then parity, then the determinant.
    pub fn check(self) -> Result<(), Refusal>
        ensures { Tests self result }
    {
        if !self.in_range() {
            return Err(Refusal::OutOfRange);
        }
        if !self.is_even() {
            return Err(Refusal::OddParity);
        }
        if !self.is_special() {
            return Err(Refusal::NotSpecial);
        }
        Ok(())
    }

    fn in_range(self) -> bool
        ensures { result ≡ in_range self }
    {
        record_ranges::entries(self.a, self.b, self.c, self.d)
            & record_ranges::entries(self.ai, self.bi, self.ci, self.di)
    }

    fn is_even(self) -> bool
        ensures { result ≡ even_parity self }
    {
        sums::is_even(self.a, self.c, self.ai, self.ci)
            & sums::is_even(self.b, self.d, self.bi, self.di)
    }

    fn is_special(self) -> bool
        ensures { result ≡ special self }
    {
        let w = determinant::whole(self);
        ((w == 1) | (w == -1)) & (determinant::root(self) == 0)
    }

    // Gv, by the Note, equations 45 to 48.
    pub fn image(self, v: Point) -> WidePoint
        ensures { wide result ≡ image_of self v }
    {
        self.image_wide(WidePoint {
            a: v.a as i64,
            b: v.b as i64,
            c: v.c as i64,
            d: v.d as i64,
        })
    }

    // Gv for a point of 64-bit numbers up to 2^40.
    pub fn image_wide(self, v: WidePoint) -> WidePoint
        requires { Near v }
        ensures { wide result ≡ image_of self (wide v) }
    {
        WidePoint {
            a: coordinates::minus(self.a, self.ai, self.bi, self.di, self.b, self.d, v),
            b: coordinates::plus(self.b, self.bi, self.ci, self.ai, self.c, self.a, v),
            c: coordinates::plus(self.c, self.ci, self.bi, self.di, self.b, self.d, v),
            d: coordinates::minus(self.d, self.di, self.ci, self.ai, self.c, self.a, v),
        }
    }

    // The inverse, for determinant 1 and −1: the Note, equations 49 to 51.
    pub fn inverse(self) -> Result<Operator, Refusal>
        ensures { Inverts self result }
    {
        self.check()?;
        Ok(self.adjugate().times(determinant::whole(self)))
    }

    // The inverse for determinant 1.
    fn adjugate(self) -> Operator
        requires { Small 100 self }
        ensures { result ≡ adjugate self }
    {
        Operator {
            a: (-sums::half_sum(self.ci, self.ai, self.c, self.a)) as i16,
            b: -self.b,
            c: sums::half_difference(self.ci, self.ai, self.c, self.a) as i16,
            d: self.bi,
            ai: sums::half_difference(self.ci, self.c, self.ai, self.a) as i16,
            bi: self.d,
            ci: sums::half_difference(self.ai, self.c, self.ci, self.a) as i16,
            di: -self.di,
        }
    }

    // All eight numbers times k, which is 1 or −1.
    fn times(self, k: i64) -> Operator
        requires { (k *ℤ k ≡ pos 1) × Small 200 self }
        ensures { result ≡ times k self }
    {
        Operator {
            a: scaled(k, self.a),
            b: scaled(k, self.b),
            c: scaled(k, self.c),
            d: scaled(k, self.d),
            ai: scaled(k, self.ai),
            bi: scaled(k, self.bi),
            ci: scaled(k, self.ci),
            di: scaled(k, self.di),
        }
    }
}

fn scaled(k: i64, x: i16) -> i16
    requires { (k *ℤ k ≡ pos 1) × (nat_abs x ≤ 200) }
    ensures { result ≡ k *ℤ x }
{
    (k * x as i64) as i16
}
