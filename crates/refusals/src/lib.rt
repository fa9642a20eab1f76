// Every refusal with its number and its sentence: SPEC, "Refusals". What refuses has an enum of its own cases, and their numbers are these.

#![tactic(auto)]

// There is no byte.
pub const NO_KIND: u8 = 1;

// The kind is none of those that are read here.
pub const UNKNOWN_KIND: u8 = 2;

// The body is cut short: fewer bytes follow the kind than it has.
pub const SHORT: u8 = 3;

// A field, a bound or a number is out of its range.
pub const OUT_OF_RANGE: u8 = 4;

// An ellipse has P·R − Q² below 1.
pub const NOT_POSITIVE: u8 = 5;

// A parity sum of an operator is odd.
pub const ODD_PARITY: u8 = 6;

// An operator with even parity sums is not special.
pub const NOT_SPECIAL: u8 = 7;

// A known kind stands out of its turn.
pub const OUT_OF_TURN: u8 = 8;

// Scale, A and B are not all there; of trays: none is taken.
pub const NO_JOB: u8 = 9;

// The end was reported, and no rewind or clearing came since.
pub const AFTER_END: u8 = 10;

// A slice has zx = zy = 0.
pub const NO_DIRECTION: u8 = 11;

// u and t do not solve the equation of "Other entry".
pub const NOT_UNITARY: u8 = 12;

// A word or a text is longer than its slice.
pub const NO_ROOM: u8 = 13;

// There is no pattern up to the job's scale.
pub const NO_PATTERN: u8 = 14;

// A byte of a word is not one of the four letters.
pub const NOT_A_LETTER: u8 = 15;

// No byte of A, a ninth A, or bytes behind B.
pub const FORM: u8 = 16;

// A line of a text is not one of the three, or is not closed.
pub const NOT_A_LINE: u8 = 17;

// No word, a last word that is not closed, or a ninth.
pub const NOT_A_TRAY: u8 = 18;

// The reader is neither 1 nor 2.
pub const NO_READER: u8 = 19;
