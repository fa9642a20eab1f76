// Taking a tray: SPEC, "Trays". The scale and the selection come as numbers, one to eight regions A back to back in one byte part, region B in another.
#![tactic(auto)]

ghost use Rattle.std.specs.Prelude.{◌≡◌, [], ◌∷◌};
ghost use Rattle.tray_list.specs.Tray.{blank as blankTarget};
ghost use Rattle.tray_taking.specs.Taking.{number_of, found_in, one_of, regions_of, padded_of, read_of, second_of, takes, take_of, no_tray};

use record::{Reading, Record, Turn};
use region::{Rectangle, Region};
use tray_list::{Target, Tray};

// Why a take is refused: as a record is read, or by the form of the parts: no byte of A, a ninth A, or bytes behind B.
#[derive(Clone, Copy)]
pub enum Refusal {
    Record(record::Refusal),
    Form,
}

impl Refusal {
    pub fn number(self) -> u8
        ensures { result ≡ number_of self }
    {
        match self {
            Refusal::Record(f) => f.number(),
            Refusal::Form => refusals::FORM,
        }
    }
}

// A tray that was taken; where it is refused the tray says nothing.
#[derive(Clone, Copy)]
pub struct Answer {
    pub verdict: Result<(), Refusal>,
    pub tray: Tray,
}

// One region record with the bytes it took, or its refusal.
#[derive(Clone, Copy)]
pub enum Found {
    Region(Region, usize),
    Refused(record::Refusal),
}

// What the records of A come to.
#[derive(Clone, Copy)]
pub struct Records {
    pub verdict: Result<(), Refusal>,
    pub count: usize,
    pub targets: [Target; 8],
}

// A take.
pub fn take(k: u64, byte: u64, a: &[u8], b: &[u8]) -> Answer
    ensures { take_of result.verdict result.tray ≡ takes (record { scale = k; byte = byte; a = a.now; b = b.now }) }
{
    if 20 < k || 1 < byte {
        return refused(Refusal::Record(record::Refusal::OutOfRange));
    }
    if a.is_empty() {
        return refused(Refusal::Form);
    }
    with_second(k as u8, byte == 1, regions(a), b)
}

// The same where the scale and the byte are in their ranges and the records of A are read: B last.
fn with_second(k: u8, all: bool, r: Records, b: &[u8]) -> Answer
    ensures { take_of result.verdict result.tray ≡ second_of k all (read_of r) b.now }
{
    match r.verdict {
        Ok(()) => match one(b) {
            Found::Region(g, n) => {
                if n < b.len() {
                    return refused(Refusal::Form);
                }
                taken(k, all, r, g)
            }
            Found::Refused(why) => refused(Refusal::Record(why)),
        },
        Err(f) => refused(f),
    }
}

fn taken(k: u8, all: bool, r: Records, b: Region) -> Answer
    ensures { (result.verdict ≡ (Ok tt)) × (result.tray ≡ record { k = k; all = all; b = b; count = r.count; targets = r.targets }) }
{
    let targets = r.targets;
    Answer {
        verdict: Ok(()),
        tray: Tray {
            k,
            all,
            b,
            count: r.count,
            targets,
        },
    }
}

fn refused(f: Refusal) -> Answer
    ensures { result.verdict ≡ Err f }
{
    Answer {
        verdict: Err(f),
        tray: no_tray(),
    }
}

// A tray without regions.
pub fn no_tray() -> Tray
    ensures { result ≡ no_tray }
{
    let t = blank();
    Tray {
        k: 0,
        all: false,
        b: t.region,
        count: 0,
        targets: [t; 8],
    }
}

fn blank() -> Target
    ensures { result ≡ blankTarget }
{
    Target {
        region: Region::Rectangle(Rectangle {
            n: 0,
            xl: 0,
            xh: 0,
            yl: 0,
            yh: 0,
        }),
    }
}

// The region record at the front of the bytes.
fn one(bytes: &[u8]) -> Found
    ensures { result ≡ one_of bytes.now }
{
    match record::read(bytes, Turn::First) {
        Reading::Accepted(x, n) => region_of(x, n),
        Reading::Refused(f) => Found::Refused(f),
    }
}

fn region_of(x: Record, n: usize) -> Found
    ensures { result ≡ found_in x n }
{
    match x {
        Record::Region(g) => Found::Region(g, n),
        _ => Found::Refused(record::Refusal::OutOfTurn),
    }
}

// The records of A until the bytes run out, one is refused, or a ninth would begin.
fn regions(a: &[u8]) -> Records
    ensures { read_of result ≡ padded_of (regions_of 8 a.now) }
{
    let mut targets = [blank(); 8];
    let mut count = 0;
    let mut at = 0;
    // A while: a step goes past a whole record.
    while at < a.len() {
        if count == 8 {
            return unread(Refusal::Form);
        }
        match one(&a[at..]) {
            Found::Region(g, n) => {
                targets[count] = Target { region: g };
                count += 1;
                at += n;
            }
            Found::Refused(why) => {
                return unread(Refusal::Record(why));
            }
        }
    }
    Records {
        verdict: Ok(()),
        count,
        targets,
    }
}

fn unread(f: Refusal) -> Records
    ensures { result.verdict ≡ Err f }
{
    Records {
        verdict: Err(f),
        count: 0,
        targets: [blank(); 8],
    }
}
