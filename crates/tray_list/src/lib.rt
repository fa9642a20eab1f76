// Trays: one scale, one selection and one region B with one to eight regions A, and the points that at least one of their jobs lists: SPEC, "Trays".
#![tactic(auto)]

ghost use Rattle.std.specs.Prelude.{◌≡◌, ◌<◌};
ghost use Rattle.tray_list.specs.Tray.{job_at, size};

use region::{Job, Region};

// A region A of a tray.
#[derive(Clone, Copy)]
pub struct Target {
    pub region: Region,
}

// The first count targets are the tray's.
#[derive(Clone, Copy)]
pub struct Tray {
    pub k: u8,
    pub all: bool,
    pub b: Region,
    pub count: usize,
    pub targets: [Target; 8],
}

// The job of region number j.
pub fn job(t: Tray, j: usize) -> Job
    requires { j < 8 }
    ensures { result ≡ job_at t j }
{
    Job {
        k: t.k,
        all: t.all,
        a: t.targets[j].region,
        b: t.b,
    }
}

// How many regions a tray has, eight at most.
pub fn size(t: Tray) -> usize
    ensures { result ≡ size t }
{
    t.count.min(8)
}
