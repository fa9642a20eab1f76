// Job records: SPEC, "Records". One reading takes one record from the front of the bytes given, or refuses it.
#![tactic(auto)]

ghost use Rattle.std.specs.Prelude.{◌≡◌, ◌≤◌, length};
ghost use Rattle.region.specs.Region.{check_of as regionCheck};
ghost use Rattle.operator.specs.Operator.{check_of as operatorCheck};
ghost use Rattle.record_kinds.specs.Kinds.{body_length};
ghost use Rattle.record.specs.Record.{Reads, body_of, scale_of, selection_of, rectangle_of, ellipse_of, slice_of, operator_of, region_reading, operator_reading};

use operator::Operator;
use record_kinds::Kind;
pub use record_kinds::{Refusal, Turn};
use region::{Ellipse, Rectangle, Region, Slice};

#[derive(Clone, Copy)]
pub enum Record {
    Scale(u8),
    // Whether all solutions are listed, or only those that are new at the scale.
    Selection(bool),
    Region(Region),
    Operator(Operator),
}

// A record and the bytes it took, or the refusal, which takes none.
#[derive(Clone, Copy)]
pub enum Reading {
    Accepted(Record, usize),
    Refused(Refusal),
}

// One reading.
pub fn read(bytes: &[u8], turn: Turn) -> Reading
    ensures { Reads bytes.now turn result }
{
    if bytes.len() == 0 {
        return Reading::Refused(Refusal::NoKind);
    }
    let kind = record_kinds::kind_of(bytes[0]);
    let short = bytes.len() - 1 < record_kinds::body_length(kind);
    match record_kinds::admit(
        record_kinds::is_known(kind),
        record_kinds::in_turn(kind, turn),
        short,
    ) {
        Err(why) => Reading::Refused(why),
        Ok(()) => body(kind, &bytes[1..]),
    }
}

// A record's body, which is all there.
fn body(kind: Kind, s: &[u8]) -> Reading
    requires { body_length kind ≤ length s.now }
    ensures { result ≡ body_of kind s.now }
{
    match kind {
        Kind::Scale => scale_at(s),
        Kind::Rectangle => checked_region(Region::Rectangle(rectangle_at(s)), 19),
        Kind::Ellipse => checked_region(Region::Ellipse(ellipse_at(s)), 21),
        Kind::Slice => checked_region(Region::Slice(slice_at(s)), 11),
        Kind::Operator => checked_operator(operator_at(s), 17),
        Kind::Selection => selection_at(s),
        Kind::Unknown => Reading::Refused(Refusal::UnknownKind),
    }
}

fn scale_at(s: &[u8]) -> Reading
    requires { 1 ≤ length s.now }
    ensures { result ≡ scale_of s.now }
{
    let k = s[0];
    if record_ranges::scale(k) {
        Reading::Accepted(Record::Scale(k), 2)
    } else {
        Reading::Refused(Refusal::OutOfRange)
    }
}

fn selection_at(s: &[u8]) -> Reading
    requires { 1 ≤ length s.now }
    ensures { result ≡ selection_of s.now }
{
    match s[0] {
        0 => Reading::Accepted(Record::Selection(false), 2),
        1 => Reading::Accepted(Record::Selection(true), 2),
        _ => Reading::Refused(Refusal::OutOfRange),
    }
}

// Four readers, not one: each kind has fields of its own, at places of its own.
fn rectangle_at(s: &[u8]) -> Rectangle
    requires { 18 ≤ length s.now }
    ensures { result ≡ rectangle_of s.now }
{
    Rectangle {
        n: record_fields::u16_at(s, 0),
        xl: record_fields::i32_at(s, 2),
        xh: record_fields::i32_at(s, 6),
        yl: record_fields::i32_at(s, 10),
        yh: record_fields::i32_at(s, 14),
    }
}

fn ellipse_at(s: &[u8]) -> Ellipse
    requires { 20 ≤ length s.now }
    ensures { result ≡ ellipse_of s.now }
{
    Ellipse {
        n: record_fields::u16_at(s, 0),
        cx: record_fields::i32_at(s, 2),
        cy: record_fields::i32_at(s, 6),
        p: record_fields::u16_at(s, 10),
        q: record_fields::i16_at(s, 12),
        r: record_fields::u16_at(s, 14),
        s: record_fields::u32_at(s, 16),
    }
}

fn slice_at(s: &[u8]) -> Slice
    requires { 10 ≤ length s.now }
    ensures { result ≡ slice_of s.now }
{
    Slice {
        n: record_fields::u16_at(s, 0),
        zx: record_fields::i16_at(s, 2),
        zy: record_fields::i16_at(s, 4),
        w: record_fields::i32_at(s, 6),
    }
}

fn operator_at(s: &[u8]) -> Operator
    requires { 16 ≤ length s.now }
    ensures { result ≡ operator_of s.now }
{
    Operator {
        a: record_fields::i16_at(s, 0),
        b: record_fields::i16_at(s, 2),
        c: record_fields::i16_at(s, 4),
        d: record_fields::i16_at(s, 6),
        ai: record_fields::i16_at(s, 8),
        bi: record_fields::i16_at(s, 10),
        ci: record_fields::i16_at(s, 12),
        di: record_fields::i16_at(s, 14),
    }
}

fn checked_region(r: Region, taken: usize) -> Reading
    ensures { result ≡ region_reading (regionCheck r) r taken }
{
    let c = r.check();
    match c {
        Ok(()) => Reading::Accepted(Record::Region(r), taken),
        Err(region::Refusal::OutOfRange) => Reading::Refused(Refusal::OutOfRange),
        Err(region::Refusal::NotPositive) => Reading::Refused(Refusal::NotPositive),
        Err(region::Refusal::NoDirection) => Reading::Refused(Refusal::NoDirection),
    }
}

fn checked_operator(g: Operator, taken: usize) -> Reading
    ensures { result ≡ operator_reading (operatorCheck g) g taken }
{
    let c = g.check();
    match c {
        Ok(()) => Reading::Accepted(Record::Operator(g), taken),
        Err(operator::Refusal::OutOfRange) => Reading::Refused(Refusal::OutOfRange),
        Err(operator::Refusal::OddParity) => Reading::Refused(Refusal::OddParity),
        Err(operator::Refusal::NotSpecial) => Reading::Refused(Refusal::NotSpecial),
    }
}
