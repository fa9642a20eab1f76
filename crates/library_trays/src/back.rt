// The session of trays that numbers are.
ghost use Rattle.std.specs.Prelude.{◌≡◌};
ghost use Rattle.library_trays.specs.Numbers.{target_of, targets_of, tray_of, session_of};

use crate::TrayState;
use library_numbers::Shape;
use tray::{Session, Stage};
use tray_list::{Target, Tray};

fn target_of(s: Shape) -> Target
    ensures { result ≡ target_of s }
{
    let region = library_numbers::region_of(s);
    Target { region: region }
}

// All eight.
fn targets_of(from: [Shape; 8]) -> [Target; 8]
    ensures { result ≡ targets_of from }
{
    let mut targets = [target_of(from[0]); 8];
    let mut j = 0;
    while j < 8 {
        targets[j] = target_of(from[j]);
        j += 1;
    }
    targets
}

fn tray_of(s: TrayState) -> Tray
    ensures { result ≡ tray_of s }
{
    let shapes = s.a;
    let targets = targets_of(shapes);
    let b = library_numbers::region_of(s.b);
    Tray {
        k: s.k,
        all: library_numbers::is_set(s.all),
        b: b,
        count: s.count,
        targets: targets,
    }
}

// The session.
pub(crate) fn session_of(s: TrayState) -> Session
    ensures { result ≡ session_of s }
{
    let tray = tray_of(s);
    if s.taken == 0 {
        return Session {
            stage: Stage::Early,
            tray: tray,
        };
    }
    let spot = library_numbers::spot_of(s.ended, library_numbers::point_of(s.spot));
    Session {
        stage: Stage::Walking(spot),
        tray: tray,
    }
}
