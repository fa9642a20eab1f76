// Pattern sheets, their two readers and their writer: document 02, Ticket 14. A reading takes one sheet from the front of the bytes given, or refuses it.
#![tactic(auto)]

ghost use Rattle.std.specs.Prelude.{◌≡◌, ◌+◌, ◌≤◌, length};
ghost use Rattle.record_ranges.specs.Ranges.{top_scale};
ghost use Rattle.pattern_sheet.specs.Sheet.{number_of, k_at, point_ranked, sheet_at, desk_of, crew_of, reading_of};
ghost use Rattle.pattern_sheet.specs.Write.{number_bytes, point_bytes, bytes_of, Writes};
ghost use Rattle.text.specs.Written.{written};
ghost use Rattle.text.specs.Append.{Appended};

use ring::Point;

// The desk and the line crew.
pub const DESK: u8 = 1;

pub const CREW: u8 = 2;

const KIND: u8 = 7;

// The kind byte and the body.
const LENGTH: usize = 38;

// All that is written on a sheet.
#[derive(Clone, Copy)]
pub struct Sheet {
    pub k: u8,
    pub u: Point,
    pub t: Point,
    pub ticks: u32,
}

// Why a sheet is not read or not written; the numbers are `number_of` of specs/Sheet.
#[derive(Clone, Copy)]
pub enum Refusal {
    NoKind,
    NotASheet,
    Short,
    OutOfRange,
    NotUnitary,
    NoRoom,
    NoReader,
}

// What a reader sees, and the bytes taken: the desk the sheet, the crew its m and its ticks. A refusal takes none.
#[derive(Clone, Copy)]
pub enum Reading {
    Desk(Sheet, usize),
    Crew(u64, u32, usize),
    Refused(Refusal),
}

impl Refusal {
    pub fn number(self) -> u8
        ensures { result ≡ number_of self }
    {
        match self {
            Refusal::NoKind => refusals::NO_KIND,
            Refusal::NotASheet => refusals::UNKNOWN_KIND,
            Refusal::Short => refusals::SHORT,
            Refusal::OutOfRange => refusals::OUT_OF_RANGE,
            Refusal::NotUnitary => refusals::NOT_UNITARY,
            Refusal::NoRoom => refusals::NO_ROOM,
            Refusal::NoReader => refusals::NO_READER,
        }
    }
}

// One reading.
#[tactic(auto, unfolding(crate::specs::Sheet::reading_of))]
pub fn read(reader: u8, bytes: &[u8]) -> Reading
    ensures { result ≡ reading_of reader bytes.now }
{
    if reader < DESK {
        return Reading::Refused(Refusal::NoReader);
    }
    if CREW < reader {
        return Reading::Refused(Refusal::NoReader);
    }
    if bytes.len() == 0 {
        return Reading::Refused(Refusal::NoKind);
    }
    if bytes[0] != KIND {
        return Reading::Refused(Refusal::NotASheet);
    }
    if bytes.len() < LENGTH {
        return Reading::Refused(Refusal::Short);
    }
    if !record_ranges::scale(bytes[1]) {
        return Reading::Refused(Refusal::OutOfRange);
    }
    if reader == DESK {
        desk(bytes)
    } else {
        crew(bytes)
    }
}

// The bytes of a sheet at the front of a slice. A sheet that the desk's reading refuses is not written.
pub fn write(sheet: Sheet, out: &mut [u8]) -> Result<usize, Refusal>
    ensures { Writes sheet out.old out.new result }
{
    let ranged = record_ranges::scale(sheet.k);
    let unitary = entry_equation::completes(sheet.k, sheet.u, sheet.t);
    if !ranged {
        return Err(Refusal::OutOfRange);
    }
    if !unitary {
        return Err(Refusal::NotUnitary);
    }
    if out.len() < LENGTH {
        return Err(Refusal::NoRoom);
    }
    put_sheet(out, sheet);
    Ok(LENGTH)
}

// The desk sees every field, of a sheet whose u and t make a unitary matrix.
fn desk(s: &[u8]) -> Reading
    requires { (38 ≤ length s.now) × (k_at s.now ≤ top_scale) }
    ensures { result ≡ desk_of s.now }
{
    let sheet = sheet_at(s);
    if entry_equation::completes(sheet.k, sheet.u, sheet.t) {
        Reading::Desk(sheet, LENGTH)
    } else {
        Reading::Refused(Refusal::NotUnitary)
    }
}

// The crew sees m and the ticks.
fn crew(s: &[u8]) -> Reading
    requires { 38 ≤ length s.now }
    ensures { result ≡ crew_of s.now }
{
    let k = s[1];
    let u = point_at(s, 2);
    let m = ring::pulse_count(u.exponent(k));
    Reading::Crew(m, record_fields::u32_at(s, 34), LENGTH)
}

fn sheet_at(s: &[u8]) -> Sheet
    requires { 38 ≤ length s.now }
    ensures { result ≡ sheet_at s.now }
{
    let u = point_at(s, 2);
    let t = point_at(s, 18);
    Sheet {
        k: s[1],
        u,
        t,
        ticks: record_fields::u32_at(s, 34),
    }
}

// The four numbers from place i on.
fn point_at(s: &[u8], i: usize) -> Point
    requires { i + 16 ≤ length s.now }
    ensures { result ≡ point_ranked s.now i }
{
    Point {
        a: record_fields::i32_at(s, i),
        b: record_fields::i32_at(s, i + 4),
        c: record_fields::i32_at(s, i + 8),
        d: record_fields::i32_at(s, i + 12),
    }
}

// All bytes of a sheet.
fn put_sheet(out: &mut [u8], sheet: Sheet)
    requires { 38 ≤ length out.old }
    ensures { out.new ≡ written out.old 0 (bytes_of sheet) }
{
    let a = text::put_bytes(out, 0, &[KIND, sheet.k]);
    let b = put_point(out, a, sheet.u);
    let c = put_point(out, b, sheet.t);
    text::put_bytes(out, c, &record_fields::u32_bytes(sheet.ticks));
}

// The four numbers of a point from place `at` on, and the place after them.
fn put_point(out: &mut [u8], at: usize, p: Point) -> usize
    requires { at + 16 ≤ length out.old }
    ensures { Appended out.old at (point_bytes p) out.new result }
{
    let a = put_number(out, at, p.a);
    let b = put_number(out, a, p.b);
    let c = put_number(out, b, p.c);
    put_number(out, c, p.d)
}

fn put_number(out: &mut [u8], at: usize, x: i32) -> usize
    requires { at + 4 ≤ length out.old }
    ensures { Appended out.old at (number_bytes x) out.new result }
{
    text::put_bytes(out, at, &record_fields::i32_bytes(x))
}
