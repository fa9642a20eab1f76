// Whole numbers of two 64-bit words.
#![tactic(auto)]

ghost use Rattle.std.specs.Prelude.{◌≡◌, ◌+◌, ◌-◌, ◌*◌, ◌^◌, ◌<◌, ◌≤◌, pos, ◌+ℤ◌, ◌-ℤ◌, ◌*ℤ◌, nat_lt, unsigned_abs};
ghost use Rattle.std.specs.Int.Signed.{non_neg};
ghost use Rattle.integers_wide.specs.Meaning.{size_of, wrapped, meaning, turned_if, Half};

// hi·2^64 + lo, a signed number in two's complement.
#[derive(Clone, Copy)]
pub struct Wide {
    pub hi: i64,
    pub lo: u64,
}

// hi·2^64 + lo, without a sign.
#[derive(Clone, Copy)]
pub struct Size {
    pub hi: u64,
    pub lo: u64,
}

// 2^64.
const WORD: u128 = 0x1_0000_0000_0000_0000;

impl Size {
    // The number that n is, from 2^128 on it begins at 0 again.
    #[tactic(auto, unfolding(crate::specs::Meaning::size_of, crate::specs::Meaning::wrapped))]
    fn of(n: u128) -> Size
        ensures wrapped { result ≡ wrapped n }
        ensures size { size_of result ≡ n }
    {
        Size {
            hi: (n / WORD) as u64,
            lo: (n % WORD) as u64,
        }
    }

    #[tactic(auto, unfolding(crate::specs::Meaning::size_of))]
    fn number(self) -> u128
        ensures { result ≡ size_of self }
    {
        u128::from(self.hi) * WORD + u128::from(self.lo)
    }

    // Whether it is 0.
    #[tactic(auto, unfolding(crate::specs::Meaning::size_of))]
    pub fn is_zero(self) -> bool
        ensures { result ≡ nat_lt (size_of self) 1 }
    {
        self.hi == 0 && self.lo == 0
    }

    // Whether it is less than y.
    pub fn is_below(self, y: Size) -> bool
        ensures { result ≡ nat_lt (size_of self) (size_of y) }
    {
        self.number() < y.number()
    }

    // n more; from 2^128 on it begins at 0 again.
    pub fn plus(self, n: u64) -> Size
        ensures { result ≡ wrapped (size_of self + n) }
    {
        Size::of(self.number().wrapping_add(u128::from(n)))
    }

    // a·b, by half words.
    pub fn product(a: u64, b: u64) -> Size
        ensures { size_of result ≡ a * b }
    {
        Size::of(u128::from(a) * u128::from(b))
    }

    // What is left after y is taken away.
    pub fn less(self, y: Size) -> Size
        requires { size_of y ≤ size_of self }
        ensures { size_of result ≡ size_of self - size_of y }
    {
        Size::of(self.number() - y.number())
    }
}

impl Wide {
    fn of_number(z: i128) -> Wide
        ensures { meaning result ≡ z }
    {
        let bits = Size::of(z.cast_unsigned());
        Wide {
            hi: bits.hi.cast_signed(),
            lo: bits.lo,
        }
    }

    #[tactic(auto, unfolding(crate::specs::Meaning::meaning))]
    fn number(self) -> i128
        ensures { result ≡ meaning self }
    {
        i128::from(self.hi) * (WORD as i128) + i128::from(self.lo)
    }

    // A number by its sign and size.
    #[tactic(auto, unfolding(crate::specs::Meaning::size_of))]
    pub fn signed(minus: bool, s: Size) -> Wide
        requires { s.hi < 2 ^ 63 }
        ensures { meaning result ≡ turned_if minus (pos (size_of s)) }
    {
        let n = s.number() as i128;
        Wide::of_number(if minus { -n } else { n })
    }

    // A number of one word as one of two.
    pub fn of(z: i64) -> Wide
        ensures { meaning result ≡ z }
    {
        Wide::of_number(i128::from(z))
    }

    // x·y, for every x and y of one word.
    pub fn product(x: i64, y: i64) -> Wide
        ensures { meaning result ≡ x *ℤ y }
    {
        Wide::of_number(i128::from(x) * i128::from(y))
    }

    // x + y, where both have half of the room.
    pub fn plus(self, y: Wide) -> Wide
        requires { Half self × Half y }
        ensures { meaning result ≡ meaning self +ℤ meaning y }
    {
        Wide::of_number(self.number() + y.number())
    }

    // x − y, where both have half of the room.
    pub fn minus(self, y: Wide) -> Wide
        requires { Half self × Half y }
        ensures { meaning result ≡ meaning self -ℤ meaning y }
    {
        Wide::of_number(self.number() - y.number())
    }

    // Whether it is 0 or more.
    pub fn is_nonneg(self) -> bool
        ensures { result ≡ non_neg (meaning self) }
    {
        0 <= self.number()
    }

    // The absolute value, that of −2^127 too.
    pub fn size(self) -> Size
        ensures { size_of result ≡ unsigned_abs (meaning self) }
    {
        Size::of(self.number().unsigned_abs())
    }
}
