// The counts, as a tally and back.
ghost use Rattle.std.specs.Prelude.{◌≡◌};
ghost use Rattle.library_numbers.specs.Numbers.{tally_of, counts_of};

use crate::{Count, Counts};
use integers_wide::Size;
use session_tally::Tally;

// The tally.
pub(crate) fn tally_of(c: Counts) -> Tally
    ensures { result ≡ tally_of c }
{
    let mut counts = [Size { hi: 0, lo: 0 }; 21];
    for (e, n) in c.counts.iter().enumerate() {
        counts[e] = Size { hi: n.hi, lo: n.lo };
    }
    Tally { counts }
}

// The counts of a tally.
pub fn counts_of(t: Tally) -> Counts
    ensures { result ≡ counts_of t }
{
    let mut counts = [Count { hi: 0, lo: 0 }; 21];
    for (e, n) in t.counts.iter().enumerate() {
        counts[e] = Count { hi: n.hi, lo: n.lo };
    }
    Counts { counts }
}
