// A piece of the output into a slice that has room for a line.
ghost use Rattle.std.specs.Prelude.{◌≤◌, length};
ghost use Rattle.list_states.specs.State.{state_of};
ghost use Rattle.list_output.specs.Pieces.{FilledPart};

use integers_wide::Size;
use list_states::{Output, Piece};
use session::Session;

pub(crate) fn part(o: Output, out: &mut [u8]) -> Piece
    requires { 126 ≤ length out.old }
    ensures { FilledPart (state_of o) result out.old out.new }
{
    match o {
        Output::TooLong => {
            let n = list_lines::put_too_long(out, 0);
            list_states::last(n)
        }
        Output::Refusal(f, at) => {
            let n = list_lines::put_refusal(out, 0, f, at);
            list_states::last(n)
        }
        Output::List(s, total) => page(s, total, out),
        Output::Last(total) => {
            let n = list_lines::put_end(out, 0, total);
            list_states::last(n)
        }
        Output::Done => list_states::last(0),
    }
}

// One hand-out's lines.
fn page(s: Session, total: Size, out: &mut [u8]) -> Piece
    ensures { FilledPart (state_of (Output.List s total)) result out.old out.new }
{
    let p = list_pages::next(s, out);
    let length = p.length;
    let session = p.session;
    let sum = total.plus(p.count as u64);
    if p.more {
        return Piece {
            next: Output::List(session, sum),
            length,
        };
    }
    Piece {
        next: Output::Last(sum),
        length,
    }
}
