// Parities of a point's coordinates, and what they say of the word's front.
ghost use Rattle.std.specs.Prelude.{◌≡◌};
ghost use Rattle.gate_theory.specs.Bits.{sum, odd, rest, full, none, uniform, plain, bare};
ghost use Rattle.gate_theory.specs.Odd.{odd?};
ghost use Rattle.gate_theory.specs.Parities.{parities};

use gate_theory::Bits;
use ring::Point;

fn is_odd(a: i32) -> bool
    ensures { result ≡ odd? a }
{
    !integers::is_even(a as i64)
}

pub(crate) fn parities(v: Point) -> Bits
    ensures { result ≡ parities v }
{
    Bits {
        a: is_odd(v.a),
        b: is_odd(v.b),
        c: is_odd(v.c),
        d: is_odd(v.d),
    }
}

fn sum(p: Bits, q: Bits) -> Bits
    ensures { result ≡ sum p q }
{
    Bits {
        a: p.a ^ q.a,
        b: p.b ^ q.b,
        c: p.c ^ q.c,
        d: p.d ^ q.d,
    }
}

pub(crate) fn odd(p: Bits) -> bool
    ensures { result ≡ odd p }
{
    p.a ^ p.b ^ p.c ^ p.d
}

fn rest(p: Bits) -> bool
    ensures { result ≡ rest p }
{
    p.a == p.c && p.b == p.d
}

fn full(p: Bits) -> bool
    ensures { result ≡ full p }
{
    p.a && p.b && p.c && p.d
}

pub(crate) fn none(p: Bits) -> bool
    ensures { result ≡ none p }
{
    !p.a && !p.b && !p.c && !p.d
}

fn uniform(p: Bits) -> bool
    ensures { result ≡ uniform p }
{
    full(p) || none(p)
}

// No T in front.
pub(crate) fn plain(p: Bits, q: Bits) -> bool
    ensures { result ≡ plain p q }
{
    let s = sum(p, q);
    if odd(p) { rest(s) } else { uniform(s) }
}

// No S in front.
pub(crate) fn bare(p: Bits, q: Bits) -> bool
    ensures { result ≡ bare p q }
{
    let s = sum(p, q);
    if odd(p) { uniform(s) } else { none(s) }
}
