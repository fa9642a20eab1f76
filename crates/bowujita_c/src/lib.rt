// The archive for C: SPEC, "Library"; include/bowujita.h, bindings/. Each export calls the function of its name in `bowujita` and promises what that promises. Nothing else is exported.
#![tactic(auto)]

ghost use Rattle.std.specs.Prelude.{◌≡◌};
ghost use Rattle.session_model.specs.Session.{reading, rewind, clear, plain, image_of, shortest};
ghost use Rattle.library_numbers.specs.Numbers.{point_of};
ghost use Rattle.bowujita.specs.Calls.{Leaves, Fills, Asks};

mod alone;
mod companions;
mod operators;
mod trays;

use library_numbers::{Counts, Four, Left, Reply, State};

// The number of this table of calls and structs: BOWUJITA_ABI of the header.
#[unsafe(no_mangle)]
pub extern "C" fn bowujita_abi() -> u32
    ensures { result ≡ 2 }
{
    bowujita::bowujita_abi()
}

// One reading: a record from the front of the bytes joins the session, or is refused.
#[unsafe(no_mangle)]
pub extern "C" fn bowujita_read(s: State, bytes: &[u8]) -> Left
    ensures { Leaves (reading bytes.now) s result }
{
    bowujita::bowujita_read(s, bytes)
}

// A hand-out: as many of the next listed points as the slice has space for.
#[unsafe(no_mangle)]
pub extern "C" fn bowujita_hand_out(s: State, out: &mut [i32]) -> Left
    ensures { Fills s out.old out.new result }
{
    bowujita::bowujita_hand_out(s, out)
}

// Back before the first point.
#[unsafe(no_mangle)]
pub extern "C" fn bowujita_rewind(s: State) -> Left
    ensures { Leaves rewind s result }
{
    bowujita::bowujita_rewind(s)
}

// A fresh session.
#[unsafe(no_mangle)]
pub extern "C" fn bowujita_clear(s: State) -> Left
    ensures { Leaves clear s result }
{
    bowujita::bowujita_clear(s)
}

// Whether the job lists a point.
#[unsafe(no_mangle)]
pub extern "C" fn bowujita_has_solution(s: State) -> Reply
    ensures { Asks plain s result }
{
    bowujita::bowujita_has_solution(s)
}

// Whether w is what the remembered operator makes of a listed point.
#[unsafe(no_mangle)]
pub extern "C" fn bowujita_has_image(s: State, w: Four) -> Reply
    ensures { Asks (image_of (point_of w)) s result }
{
    bowujita::bowujita_has_image(s, w)
}

// The shortest pattern that the job allows.
#[unsafe(no_mangle)]
pub extern "C" fn bowujita_shortest(s: State) -> Reply
    ensures { Asks shortest s result }
{
    bowujita::bowujita_shortest(s)
}

// How many of the points handed out since the last rewind or clearing have each exponent.
#[unsafe(no_mangle)]
pub extern "C" fn bowujita_tally(s: State) -> Counts
    ensures { result ≡ s.tally }
{
    bowujita::bowujita_tally(s)
}
