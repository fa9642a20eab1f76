// The kinds of job records, whose turn it is, and what is refused before a body is read: SPEC, "Records" and "Refusals".
#![tactic(auto)]

ghost use Rattle.std.specs.Prelude.{◌≡◌};
ghost use Rattle.record_kinds.specs.Kinds.{number as number_of, admission_of, kind_of, is_known, in_turn, is_region, body_length};

// What the first byte of a record says.
#[derive(Clone, Copy)]
pub enum Kind {
    Scale,
    Rectangle,
    Ellipse,
    Slice,
    Operator,
    Selection,
    Unknown,
}

// What a job waits for: after the scale it is the selection or region A, after the selection only A.
#[derive(Clone, Copy)]
pub enum Turn {
    Scale,
    Selection,
    First,
    Second,
    Operators,
}

// The refusals of SPEC, "Refusals"; their numbers are `number` of specs/Kinds.
#[derive(Clone, Copy)]
pub enum Refusal {
    NoKind,
    UnknownKind,
    Short,
    OutOfRange,
    NotPositive,
    OddParity,
    NotSpecial,
    OutOfTurn,
    NoJob,
    Ended,
    NoDirection,
    NoPattern,
}

impl Refusal {
    pub fn number(self) -> u8
        ensures { result ≡ number_of self }
    {
        match self {
            Refusal::NoKind => refusals::NO_KIND,
            Refusal::UnknownKind => refusals::UNKNOWN_KIND,
            Refusal::Short => refusals::SHORT,
            Refusal::OutOfRange => refusals::OUT_OF_RANGE,
            Refusal::NotPositive => refusals::NOT_POSITIVE,
            Refusal::OddParity => refusals::ODD_PARITY,
            Refusal::NotSpecial => refusals::NOT_SPECIAL,
            Refusal::OutOfTurn => refusals::OUT_OF_TURN,
            Refusal::NoJob => refusals::NO_JOB,
            Refusal::Ended => refusals::AFTER_END,
            Refusal::NoDirection => refusals::NO_DIRECTION,
            Refusal::NoPattern => refusals::NO_PATTERN,
        }
    }
}

// What is refused before the body is read, in the order 2, 8, 3.
#[tactic(auto, unfolding(crate::specs::Kinds::admission_of))]
pub fn admit(known: bool, fits: bool, short: bool) -> Result<(), Refusal>
    ensures { result ≡ admission_of known fits short }
{
    if !known {
        return Err(Refusal::UnknownKind);
    }
    if !fits {
        return Err(Refusal::OutOfTurn);
    }
    if short {
        return Err(Refusal::Short);
    }
    Ok(())
}

// The kind that a first byte names.
#[tactic(auto, unfolding(crate::specs::Kinds::kind_of))]
pub fn kind_of(b: u8) -> Kind
    ensures { result ≡ kind_of b }
{
    match b {
        1 => Kind::Scale,
        2 => Kind::Rectangle,
        3 => Kind::Ellipse,
        4 => Kind::Operator,
        5 => Kind::Slice,
        6 => Kind::Selection,
        _ => Kind::Unknown,
    }
}

// Whether there are records of a kind.
pub fn is_known(kind: Kind) -> bool
    ensures { result ≡ is_known kind }
{
    !matches!(kind, Kind::Unknown)
}

// Whether a kind stands in its turn.
pub fn in_turn(kind: Kind, turn: Turn) -> bool
    ensures { result ≡ in_turn kind turn }
{
    match kind {
        Kind::Scale => matches!(turn, Turn::Scale),
        Kind::Rectangle | Kind::Ellipse | Kind::Slice => is_region(turn),
        Kind::Operator => matches!(turn, Turn::Operators),
        Kind::Selection => matches!(turn, Turn::Selection),
        Kind::Unknown => false,
    }
}

fn is_region(turn: Turn) -> bool
    ensures { result ≡ is_region turn }
{
    matches!(turn, Turn::Selection | Turn::First | Turn::Second)
}

// How many bytes come after the kind.
pub fn body_length(kind: Kind) -> usize
    ensures { result ≡ body_length kind }
{
    match kind {
        Kind::Scale => 1,
        Kind::Rectangle => 18,
        Kind::Ellipse => 20,
        Kind::Slice => 10,
        Kind::Operator => 16,
        Kind::Selection => 1,
        Kind::Unknown => 0,
    }
}
