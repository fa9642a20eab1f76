// A filter that does not say how long the buffer of its input is: the fourth cell of a row on standard input, eight bytes of it at most.
#![tactic(auto)]

ghost use Rattle.std.specs.Prelude.{take};
ghost use Rattle.test_rows.specs.Cells.{cell_of};

use program_filter::Filter;

struct Fourth;

impl Filter for Fourth {
    ghost text = { λ row. take 8 (cell_of row 3) };

    ghost room = { 8 };

    fn put(out: &mut [u8], bytes: &[u8]) -> usize {
        let cell = test_rows::cell(bytes, 3);
        let n = cell.len().min(out.len());
        out[..n].copy_from_slice(&cell[..n]);
        n
    }
}

fn main(rt: HostRuntime) {
    program_filter::run::<Fourth, _, 64, 8>(&rt);
}
