// The lines of an input, gathered byte by byte in a lent slice, however the input comes cut. A line that is longer than the slice is passed over, and said to be too
// long where it ends. The lines said are those of the input, each once and in order (specs/Gathered).
#![tactic(auto)]

ghost use Rattle.std.specs.Prelude.{◌≡◌};
ghost use Rattle.text_input_lines.specs.Gathered.{none, whole_of, last_of, is_said, Stepped, Grown};

// So many bytes of a line stand at the start of the slice; whether the line is longer than the slice.
#[derive(Clone, Copy)]
pub struct Gathered {
    pub length: usize,
    pub long: bool,
}

// What a byte, or the end of the input, completes: the line of so many bytes at the start of the slice; a line that is too long; nothing.
#[derive(Clone, Copy)]
pub enum Said {
    Line(usize),
    TooLong,
    Nothing,
}

#[derive(Clone, Copy)]
pub struct Step {
    pub next: Gathered,
    pub said: Said,
}

// Before the first byte of a line.
pub fn empty() -> Gathered
    ensures { result ≡ none }
{
    Gathered {
        length: 0,
        long: false,
    }
}

// After one byte more: a line feed ends the line.
pub fn take(g: Gathered, line: &mut [u8], b: u8) -> Step
    ensures { Stepped g b result line.old line.new }
{
    if b == b'\n' {
        return Step {
            next: empty(),
            said: whole(g, line.len()),
        };
    }
    Step {
        next: grown(g, line, b),
        said: Said::Nothing,
    }
}

// Where the input ends: the last line needs no line feed.
pub fn last(g: Gathered, room: usize) -> Said
    ensures { result ≡ last_of room g }
{
    if g.long {
        return Said::TooLong;
    }
    if g.length == 0 {
        return Said::Nothing;
    }
    whole(g, room)
}

// The line gathered, where a line feed ends it.
fn whole(g: Gathered, room: usize) -> Said
    ensures { result ≡ whole_of room g }
{
    if g.long {
        return Said::TooLong;
    }
    if g.length > room {
        return Said::TooLong;
    }
    Said::Line(g.length)
}

// With one byte more of the line, which stands behind the others where there is room.
fn grown(g: Gathered, line: &mut [u8], b: u8) -> Gathered
    ensures { Grown g b result line.old line.new }
{
    let n = g.length;
    if g.long {
        return g;
    }
    if n < line.len() {
        line[n] = b;
        return Gathered {
            length: n + 1,
            long: false,
        };
    }
    Gathered {
        length: n,
        long: true,
    }
}

// Whether something is said.
pub fn is_said(s: Said) -> bool
    ensures { result ≡ is_said s }
{
    match s {
        Said::Line(_) => true,
        Said::TooLong => true,
        Said::Nothing => false,
    }
}
