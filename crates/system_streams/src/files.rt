// Files by name.
ghost use Rattle.std.specs.Prelude.{IsErr};
ghost use Rattle.std.specs.Str.{IsUtf8};

use std::rt::Files;
use std::{fs, io, str};

// The file of that name, to be read. A name that is no text has none.
pub fn open<R: Files>(rt: &R, name: &[u8]) -> io::Result<R::File>
    ensures { ¬ (IsUtf8 name.now) → IsErr result }
{
    match str::from_utf8(name) {
        Ok(path) => fs::open(rt, path),
        Err(_) => Err(io::Error::from(io::ErrorKind::InvalidInput)),
    }
}
