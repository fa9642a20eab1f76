// The line on standard error that says what failed, and why.
ghost use Rattle.std.specs.Prelude.{◌≤◌};

use std::fmt::Write;
use std::io::ErrorKind;
use std::{fmt, io, str};

// The longest text of an error that is told whole.
const ROOM: usize = 128;

#[derive(Drop)]
struct Text {
    bytes: [u8; ROOM],
    length: usize,
}

impl fmt::Write for Text {
    // What has no room is left out.
    fn write_str(&mut self, s: &str) -> fmt::Result {
        for b in s.as_bytes() {
            let at = self.length;
            if at < ROOM {
                self.bytes[at] = *b;
                self.length = at + 1;
            }
        }
        Ok(())
    }
}

// Writes a line to standard error: what failed, as the caller names it, a colon and the system's text for the error. No contract: no clause of std says what
// `eprintln!` wrote.
pub fn fail<R: Eprint>(rt: &R, what: &[u8], why: io::Error) {
    let mut said = Text {
        bytes: [0; ROOM],
        length: 0,
    };
    let _ = write!(said, "{why}");
    let all = &said.bytes[..];
    let name = readable(what);
    let text = without_number(readable(&all[..said.length.min(ROOM)]));
    let _ = eprintln!(rt; "{name}: {text}");
}

fn readable(bytes: &[u8]) -> &str {
    str::from_utf8(bytes).unwrap_or("?")
}

// The text without the error's number, which the library puts behind it.
fn without_number(text: &str) -> &str {
    match text.split_once(" (os error ") {
        Some((before, _)) => before,
        None => text,
    }
}

// Why a run of calls failed whose last one answered this.
pub(crate) fn reason(last: io::Result<usize>) -> io::Error {
    match last {
        Ok(_) => io::Error::from(ErrorKind::WriteZero),
        Err(why) => why,
    }
}
