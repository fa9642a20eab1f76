// What the list program writes for an input: SPEC, "List program". The output comes in pieces, each filled into a lent slice: joined they are `output_of` of the
// input (specs/Joined).
#![tactic(auto)]

ghost use Rattle.list_states.specs.State.{state_of};
ghost use Rattle.list_output.specs.Pieces.{Filled};

mod fill;

pub use list_states::{Output, Piece, is_done, start};

// The next piece at the start of out; none where out has no room for a line.
pub fn next(o: Output, out: &mut [u8]) -> Piece
    ensures { Filled (state_of o) result out.old out.new }
{
    if out.len() < 126 {
        return Piece { next: o, length: 0 };
    }
    fill::part(o, out)
}
