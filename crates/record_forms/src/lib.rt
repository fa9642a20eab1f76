// The fields of each kind of record, and a record's numbers as its bytes: SPEC, "Records".
#![tactic(auto)]

ghost use Rattle.std.specs.Prelude.{◌≡◌, true, cond, ◌-◌, ◌%◌, ◌^◌, ◌<◌, ltb, length};
ghost use Rattle.std.specs.Int.Signed.{mag};
ghost use Rattle.record_forms.specs.Forms.{fields_of, kind_byte, takes as takesOf, takes_all, field_bytes, body_bytes, record_bytes};
ghost use Rattle.record_forms.specs.Laid.{Laid};

use record_kinds::Kind;

// A number of a body: signed or not, and how many bytes it has.
#[derive(Clone, Copy)]
pub struct Field {
    pub signed: bool,
    pub size: usize,
}

const U1: Field = Field {
    signed: false,
    size: 1,
};

const U2: Field = Field {
    signed: false,
    size: 2,
};

const U4: Field = Field {
    signed: false,
    size: 4,
};

const I2: Field = Field {
    signed: true,
    size: 2,
};

const I4: Field = Field {
    signed: true,
    size: 4,
};

// The fields of a body, in their order.
#[tactic(auto, unfolding(crate::specs::Forms::fields_of))]
pub fn form_of(kind: Kind) -> &'static [Field]
    ensures is { result.now ≡ fields_of kind }
    ensures few { length result.now < 9 }
{
    match kind {
        Kind::Scale => &[U1],
        Kind::Rectangle => &[U2, I4, I4, I4, I4],
        Kind::Ellipse => &[U2, I4, I4, U2, I2, U2, U4],
        Kind::Operator => &[I2; 8],
        Kind::Slice => &[U2, I2, I2, I4],
        Kind::Selection => &[U1],
        Kind::Unknown => &[],
    }
}

// Whether there are as many numbers as a body has fields, and each has room in its field.
pub fn takes_all(kind: Kind, numbers: &[i64]) -> bool
    ensures { result ≡ takes_all (fields_of kind) numbers.now }
{
    let fields = form_of(kind);
    fields.len() == numbers.len() && fields.iter().zip(numbers).all(|(f, z)| takes(*f, *z))
}

// Whether a field has room for a number.
fn takes(f: Field, z: i64) -> bool
    ensures { result ≡ takesOf f z }
{
    if f.signed {
        return below(2 * size_of(z), f.size);
    }
    if z < 0 {
        return false;
    }
    below(size_of(z), f.size)
}

// z, or -1 - z where z is negative.
fn size_of(z: i64) -> u64
    ensures { (result ≡ mag z) × (result < 2 ^ 63) }
{
    let n = z.unsigned_abs();
    if z < 0 { n - 1 } else { n }
}

// Whether v has at most `size` bytes.
fn below(v: u64, size: usize) -> bool
    ensures { result ≡ ltb v (256 ^ size) }
{
    let mut w = v;
    for _ in 0..size {
        w /= 256;
    }
    w == 0
}

// A record, whose numbers have room: its kind, and its fields.
pub fn put_record(out: &mut [u8], at: usize, kind: Kind, numbers: &[i64]) -> usize
    requires { takes_all (fields_of kind) numbers.now ≡ true }
    ensures { Laid out.old at (record_bytes kind numbers.now) out.new result }
{
    let a = text::put_byte(out, at, byte_of(kind));
    put_body(out, a, kind, numbers)
}

fn byte_of(kind: Kind) -> u8
    ensures { result ≡ kind_byte kind }
{
    match kind {
        Kind::Scale => 1,
        Kind::Rectangle => 2,
        Kind::Ellipse => 3,
        Kind::Operator => 4,
        Kind::Slice => 5,
        Kind::Selection => 6,
        Kind::Unknown => 0,
    }
}

fn put_body(out: &mut [u8], at: usize, kind: Kind, numbers: &[i64]) -> usize
    requires { takes_all (fields_of kind) numbers.now ≡ true }
    ensures { Laid out.old at (body_bytes (fields_of kind) numbers.now) out.new result }
{
    let mut a = at;
    for (f, z) in form_of(kind).iter().zip(numbers) {
        a = put_number(out, a, *f, *z);
    }
    a
}

// A number that has room in its field, the least byte first.
fn put_number(out: &mut [u8], at: usize, f: Field, z: i64) -> usize
    requires { takesOf f z ≡ true }
    ensures { Laid out.old at (field_bytes f z) out.new result }
{
    let minus = z < 0;
    let mut v = size_of(z);
    let mut a = at;
    for _ in 0..f.size {
        a = text::put_byte(out, a, low_byte(minus, v));
        v /= 256;
    }
    a
}

// The least byte of v, or of -1 - v in two's complement.
fn low_byte(minus: bool, v: u64) -> u8
    ensures { result ≡ cond minus (255 - v % 256) (v % 256) }
{
    let low = (v % 256) as u8;
    if minus { 255 - low } else { low }
}
