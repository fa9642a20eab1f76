// The library for callers that are not Rattle, whom `bowujita_c` exports it to: SPEC, "Library". Every public entry is here, and nothing else. Sessions go in and come out by value, as plain numbers.
#![tactic(auto)]

ghost use Rattle.std.specs.Prelude.{◌≡◌};
ghost use Rattle.session_model.specs.Session.{reading, rewind, clear, plain, image_of, shortest};
ghost use Rattle.library_numbers.specs.Numbers.{point_of};
ghost use Rattle.bowujita.specs.Calls.{Leaves, Fills, Asks};

pub mod alone;
pub mod companions;
pub mod operators;
pub mod trays;

use library_numbers::{Counts, Four, Left, Reply, State};

// The number of this table of calls and structs: BOWUJITA_ABI of the header.
pub fn bowujita_abi() -> u32
    ensures { result ≡ 2 }
{
    2
}

// One reading: a record from the front of the bytes joins the session, or is refused.
pub fn bowujita_read(s: State, bytes: &[u8]) -> Left
    ensures { Leaves (reading bytes.now) s result }
{
    library_numbers::leaving(session_tallied::read(library_numbers::session_of(s), bytes))
}

// A hand-out: as many of the next listed points as the slice has space for.
pub fn bowujita_hand_out(s: State, out: &mut [i32]) -> Left
    ensures { Fills s out.old out.new result }
{
    library_numbers::leaving(session_tallied::hand_out(library_numbers::session_of(s), out))
}

// Back before the first point.
pub fn bowujita_rewind(s: State) -> Left
    ensures { Leaves rewind s result }
{
    library_numbers::leaving(session_tallied::rewind(library_numbers::session_of(s)))
}

// A fresh session.
pub fn bowujita_clear(s: State) -> Left
    ensures { Leaves clear s result }
{
    library_numbers::leaving(session_tallied::clear(library_numbers::session_of(s)))
}

// Whether the job lists a point.
pub fn bowujita_has_solution(s: State) -> Reply
    ensures { Asks plain s result }
{
    library_numbers::reply_of(session_tallied::has_solution(library_numbers::session_of(s)))
}

// Whether w is what the remembered operator makes of a listed point.
pub fn bowujita_has_image(s: State, w: Four) -> Reply
    ensures { Asks (image_of (point_of w)) s result }
{
    library_numbers::reply_of(session_tallied::has_image(
        library_numbers::session_of(s),
        library_numbers::point_of(w),
    ))
}

// The shortest pattern that the job allows.
pub fn bowujita_shortest(s: State) -> Reply
    ensures { Asks shortest s result }
{
    library_numbers::reply_of(session_tallied::shortest(library_numbers::session_of(s)))
}

// How many of the points handed out since the last rewind or clearing have each exponent.
pub fn bowujita_tally(s: State) -> Counts
    ensures { result ≡ s.tally }
{
    s.tally
}
