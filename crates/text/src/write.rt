// Writing: bytes and decimal numbers at a place of a slice. What does not fit is not written, and the place stays.
ghost use Rattle.std.specs.Prelude.{◌+◌, ◌<◌, ◌≤◌, ◌≡◌, [], ◌∷◌, ◌++◌, length, take, drop};
ghost use Rattle.text.specs.Decimal.{decimal, signed_decimal};
ghost use Rattle.text.specs.Written.{written, after};

// The decimal digits of n, and the place after them.
pub fn put_unsigned(out: &mut [u8], at: usize, n: u64) -> usize
    ensures { (out.new ≡ written out.old at (decimal n)) × (result ≡ after out.old at (decimal n)) }
{
    if n < 10 {
        return put_byte(out, at, b'0' + n as u8);
    }
    if n < 100 {
        return put_two(out, at, n as u8);
    }
    put_long(out, at, n)
}

// The same by way of a buffer, for a number of any length.
fn put_long(out: &mut [u8], at: usize, n: u64) -> usize
    ensures { (out.new ≡ written out.old at (decimal n)) × (result ≡ after out.old at (decimal n)) }
{
    let mut digits = [0u8; 20];
    let k = io::decimal(n, &mut digits);
    put_bytes(out, at, &digits[..k])
}

// The same for a number of two digits.
fn put_two(out: &mut [u8], at: usize, n: u8) -> usize
    requires { (10 ≤ n) × (n < 100) }
    ensures { (out.new ≡ written out.old at (decimal n)) × (result ≡ after out.old at (decimal n)) }
{
    put_bytes(out, at, &[b'0' + n / 10, b'0' + n % 10])
}

// The same of a signed number, '-' before the digits of a negative one.
pub fn put_signed(out: &mut [u8], at: usize, n: i64) -> usize
    ensures { (out.new ≡ written out.old at (signed_decimal n)) × (result ≡ after out.old at (signed_decimal n)) }
{
    let m = n.unsigned_abs();
    if n < 0 {
        put_negative(out, at, m)
    } else {
        put_unsigned(out, at, m)
    }
}

// One byte.
pub fn put_byte(out: &mut [u8], at: usize, b: u8) -> usize
    ensures { (out.new ≡ written out.old at (b ∷ [])) × (result ≡ after out.old at (b ∷ [])) }
{
    if at < out.len() {
        out[at] = b;
        return at + 1;
    }
    at
}

// '-' and the digits of n. The digits go first, since they may not fit.
fn put_negative(out: &mut [u8], at: usize, n: u64) -> usize
    ensures { (out.new ≡ written out.old at (45 ∷ decimal n)) × (result ≡ after out.old at (45 ∷ decimal n)) }
{
    if out.len() <= at {
        return at;
    }
    let end = put_unsigned(out, at + 1, n);
    if end == at + 1 {
        return at;
    }
    out[at] = b'-';
    end
}

// All of text.
pub fn put_bytes(out: &mut [u8], at: usize, text: &[u8]) -> usize
    ensures { (out.new ≡ written out.old at text.now) × (result ≡ after out.old at text.now) }
{
    if out.len() < at || out.len() - at < text.len() {
        return at;
    }
    let end = at + text.len();
    out[at..end].copy_from_slice(text);
    end
}
