// The calls on a session of trays.
ghost use Rattle.tray_model.specs.Session.{taking, rewind, clear};
ghost use Rattle.library_trays.specs.Calls.{Leaves, Fills};

use library_trays::{TrayLeft, TrayState};

// A take: a scale, a selection's byte, one to eight regions A back to back and region B replace the tray there, or are refused.
pub fn bowujita_tray_take(s: TrayState, k: u64, byte: u64, a: &[u8], b: &[u8]) -> TrayLeft
    ensures { Leaves (taking (record { scale = k; byte = byte; a = a.now; b = b.now })) s result }
{
    library_trays::take(s, k, byte, a, b)
}

// A hand-out: as many of the next points as the slice has space for, five numbers each.
pub fn bowujita_tray_hand_out(s: TrayState, out: &mut [i32]) -> TrayLeft
    ensures { Fills s out.old out.new result }
{
    library_trays::hand_out(s, out)
}

// Back before the first point.
pub fn bowujita_tray_rewind(s: TrayState) -> TrayLeft
    ensures { Leaves rewind s result }
{
    library_trays::rewind(s)
}

// Without a tray again.
pub fn bowujita_tray_clear(s: TrayState) -> TrayLeft
    ensures { Leaves clear s result }
{
    library_trays::clear(s)
}
