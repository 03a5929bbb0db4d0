// The number of a slot in the whole table (clause 6.17): first those of the basic blocks, then those of the overflow blocks.
ghost use Rattle.std.specs.Prelude.{◌≡◌, ◌<◌};
ghost use Rattle.settings.specs.Proper.{Proper};
ghost use Rattle.table.specs.Numbers.{basic_number, basic_capacity, overflow_number};

use keys::{BlockNumber, ListNumber, SlotNumber};
use settings::Layout;

// Slot p of basic block i.
pub fn basic_number(g: Layout, i: ListNumber, p: SlotNumber) -> u64
    requires { Proper g × (i.0 < g.lists) × (p.0 < g.sib) }
    ensures { result ≡ basic_number g i.0 p.0 }
{
    (g.sib * i.0 + p.0) as u64
}

// How many slots the basic blocks have.
pub fn basic_capacity(g: Layout) -> u64
    requires { Proper g }
    ensures { result ≡ basic_capacity g }
{
    (g.sib * g.lists as usize) as u64
}

// Slot p of overflow block j.
pub fn overflow_number(g: Layout, j: BlockNumber, p: SlotNumber) -> u64
    requires { Proper g × (j.0 < g.nob) × (p.0 < g.sio) }
    ensures { result ≡ overflow_number g j.0 p.0 }
{
    basic_capacity(g) + (g.sio * j.0 + p.0) as u64
}
