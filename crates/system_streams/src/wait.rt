// Waiting where the system has put us off.
use std::time::Clock;
use system_transfer::Patience;

// The pause after an answer, where there is to be one: none where patience is at its end.
pub(crate) fn after<C: Clock>(clock: &C, a: Result<usize, system_transfer::Fault>, p: Patience) {
    let Err(system_transfer::Fault::NotNow) = a else {
        return;
    };
    if p.left > 0 {
        system_nap::milliseconds(clock, p.pause);
    }
}
