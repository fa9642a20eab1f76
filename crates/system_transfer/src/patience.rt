// How long the system may put us off: so many times more without a byte moved, and the milliseconds of the next wait, from 1 doubled to 100.
ghost use Rattle.std.specs.Prelude.{◌≡◌, ◌<◌};
ghost use Rattle.system_transfer.specs.Answers.{full_patience, less_of, pause_after, is_out};

#[derive(Clone, Copy)]
pub struct Patience {
    pub left: u64,
    pub pause: u64,
}

// After a byte was moved.
pub fn full() -> Patience
    ensures { result ≡ full_patience }
{
    Patience {
        left: 36000,
        pause: 1,
    }
}

pub fn is_out(p: Patience) -> bool
    ensures { result ≡ is_out p }
{
    p.left == 0
}

// After being put off once more, by a wait or by a signal.
pub fn less(p: Patience, waits: bool) -> Patience
    ensures { result ≡ less_of p waits }
{
    if p.left == 0 {
        return p;
    }
    if waits {
        return Patience {
            left: p.left - 1,
            pause: pause_after(p.pause),
        };
    }
    Patience {
        left: p.left - 1,
        pause: p.pause,
    }
}

fn pause_after(ms: u64) -> u64
    ensures { result ≡ pause_after ms }
{
    if ms < 51 { 2 * ms } else { 100 }
}
