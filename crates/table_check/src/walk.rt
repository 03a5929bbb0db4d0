// Blocks followed one by one, each with its mark: every overflow block stands exactly once.
ghost use Rattle.std.specs.Prelude.{◌≡◌, ◌*◌, ◌≤◌, length};
ghost use Rattle.table.specs.Decode.{decode};
ghost use Rattle.table.specs.Table.{Table};
ghost use Rattle.table_check.specs.Walk.{walk, found};

use crate::steps::Way;
use keys::BlockNumber;
use settings::Layout;
use table::Step;

// Marks the blocks of a way from `first` to its end; false if there is a block that is marked already, or something that a
// sound table has not.
pub(crate) fn mark_from<W: Way>(
    t: &[u8],
    g: Layout,
    way: W,
    first: BlockNumber,
    marks: &mut [u8],
) -> bool
    requires { Table g t.now × (g.nob ≤ 8 * length marks.old) }
    ensures { walk g (W.step way g (decode g t.now).overflow) g.nob first.0 marks.old ≡ found result marks.new }
{
    let mut b = first;
    for _ in 0..g.nob {
        if b.0 >= g.nob {
            return false;
        }
        if bits::get(marks, b.0, 1) == 1 {
            return false;
        }
        bits::put(marks, b.0, 1, 1);
        match way.step(t, g, b) {
            Step::Last => return true,
            Step::Further(next) => b = next,
            Step::Damage => return false,
        }
    }
    false
}
