// Where the fields of a block stand (clauses 4.4, 4.5): counter, link, owner and slots, each behind the one before. A basic block has
// no link and no owner; where its list overflows, a block's number stands in the first L bits of its slots, so at the same place.
// The functions over `Blocks` take the number of a list or of an overflow block alike; those over a layout say which.
ghost use Rattle.std.specs.Prelude.{◌≡◌, suc, ◌+◌, ◌*◌, ◌<◌};
ghost use Rattle.settings.specs.Proper.{Proper};
ghost use Rattle.table.specs.Decode.{block_at, basic_slots, overflow_slots};
ghost use Rattle.table_read.specs.Places.{Fields, basic_slot, overflow_slot};

use keys::{BlockNumber, ListNumber, SlotNumber};
use settings::{Blocks, Layout};

// Where block i begins, and with it its counter.
pub fn counter_at(b: Blocks, i: usize) -> usize
    requires { Fields b i 0 }
    ensures { result ≡ block_at b i }
{
    b.start + i * b.bits
}

// Where the L bits behind the counter begin.
pub fn link_at(b: Blocks, i: usize) -> usize
    requires { Fields b i 0 }
    ensures { result ≡ block_at b i + b.counter }
{
    counter_at(b, i) + b.counter
}

// Where the slots begin, behind `numbers` bits of link and owner.
fn slots_at(b: Blocks, i: usize, numbers: usize) -> usize
    requires { Fields b i numbers }
    ensures { result ≡ block_at b i + (b.counter + numbers) }
{
    link_at(b, i) + numbers
}

// Where slot p begins.
fn slot_at(b: Blocks, i: usize, numbers: usize, slot: usize, p: usize) -> usize
    requires { Fields b i (numbers + suc p * slot) }
    ensures { result ≡ block_at b i + (b.counter + numbers) + p * slot }
{
    slots_at(b, i, numbers) + p * slot
}

// The slots of basic block i.
pub fn basic_slots(g: Layout, i: ListNumber) -> usize
    requires { Proper g × (i.0 < g.lists) }
    ensures { result ≡ basic_slots g i.0 }
{
    slots_at(g.basic, i.0, 0)
}

// The slots of overflow block j.
pub fn overflow_slots(g: Layout, j: BlockNumber) -> usize
    requires { Proper g × (j.0 < g.nob) }
    ensures { result ≡ overflow_slots g j.0 }
{
    slots_at(g.overflow, j.0, g.link + g.owner as usize)
}

// Slot p of basic block i.
pub fn basic_slot(g: Layout, i: ListNumber, p: SlotNumber) -> usize
    requires { Proper g × (i.0 < g.lists) × (p.0 < g.sib) }
    ensures { result ≡ basic_slot g i.0 p.0 }
{
    slot_at(g.basic, i.0, 0, g.slot, p.0)
}

// Slot p of overflow block j.
pub fn overflow_slot(g: Layout, j: BlockNumber, p: SlotNumber) -> usize
    requires { Proper g × (j.0 < g.nob) × (p.0 < g.sio) }
    ensures { result ≡ overflow_slot g j.0 p.0 }
{
    slot_at(g.overflow, j.0, g.link + g.owner as usize, g.slot, p.0)
}
