// The ranges of SPEC, "Records", as tests of the fields' numbers.
#![tactic(auto)]

ghost use Rattle.std.specs.Prelude.{◌≡◌};
ghost use Rattle.record_ranges.specs.Ranges.{between, within, scale, rectangle, ellipse, discriminant, positive, slice, directed, entries};

pub const TOP_SCALE: u8 = 20;

const TOP_N: u16 = 100;
// Ends of a rectangle, and an ellipse's centre.
const TOP_COORDINATE: u32 = 10000;
// P, Q and R.
const TOP_COEFFICIENT: u16 = 100;

const TOP_S: u32 = 1000000;
// A slice's zx and zy.
const TOP_Z: u16 = 100;

const TOP_W: u32 = 1000000;
// An operator's numbers.
const TOP_ENTRY: u16 = 100;

// Whether a scale is in range.
pub fn scale(k: u8) -> bool
    ensures { result ≡ scale k }
{
    k <= TOP_SCALE
}

// Whether a rectangle's numbers are in range.
pub fn rectangle(n: u16, xl: i32, xh: i32, yl: i32, yh: i32) -> bool
    ensures { result ≡ rectangle n xl xh yl yh }
{
    between(1, TOP_N, n)
        && within(TOP_COORDINATE, xl)
        && within(TOP_COORDINATE, xh)
        && within(TOP_COORDINATE, yl)
        && within(TOP_COORDINATE, yh)
}

// Whether an ellipse's numbers are in range.
pub fn ellipse(n: u16, cx: i32, cy: i32, p: u16, q: i16, r: u16, s: u32) -> bool
    ensures { result ≡ ellipse n cx cy p q r s }
{
    between(1, TOP_N, n)
        && within(TOP_COORDINATE, cx)
        && within(TOP_COORDINATE, cy)
        && between(1, TOP_COEFFICIENT, p)
        && within_short(TOP_COEFFICIENT, q)
        && between(1, TOP_COEFFICIENT, r)
        && s <= TOP_S
}

// PR − Q².
pub fn discriminant(p: u16, q: i16, r: u16) -> i64
    ensures { result ≡ discriminant p q r }
{
    let p = i64::from(p);
    let q = i64::from(q);
    let r = i64::from(r);
    p * r - q * q
}

// Whether the form of P, Q and R is positive: PR > Q².
pub fn positive(p: u16, q: i16, r: u16) -> bool
    ensures { result ≡ positive p q r }
{
    1 <= discriminant(p, q, r)
}

// Whether a slice's numbers are in range.
pub fn slice(n: u16, zx: i16, zy: i16, w: i32) -> bool
    ensures { result ≡ slice n zx zy w }
{
    between(1, TOP_N, n) && within_short(TOP_Z, zx) && within_short(TOP_Z, zy) && within(TOP_W, w)
}

// Whether zx and zy are a direction: not both are 0.
pub fn directed(zx: i16, zy: i16) -> bool
    ensures { result ≡ directed zx zy }
{
    zx != 0 || zy != 0
}

// Four numbers of an operator.
pub fn entries(a: i16, b: i16, c: i16, d: i16) -> bool
    ensures { result ≡ entries a b c d }
{
    within_short(TOP_ENTRY, a)
        && within_short(TOP_ENTRY, b)
        && within_short(TOP_ENTRY, c)
        && within_short(TOP_ENTRY, d)
}

fn between(lo: u16, hi: u16, n: u16) -> bool
    ensures { result ≡ between lo hi n }
{
    lo <= n && n <= hi
}

fn within(m: u32, z: i32) -> bool
    ensures { result ≡ within m z }
{
    z.unsigned_abs() <= m
}

fn within_short(m: u16, z: i16) -> bool
    ensures { result ≡ within m z }
{
    within(u32::from(m), i32::from(z))
}
