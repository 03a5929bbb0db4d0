// A list's blocks: following them to the last, and the slots of each.
ghost use Rattle.std.specs.Prelude.{◌≡◌, ◌<◌, ◌≤◌};
ghost use Rattle.settings.specs.Proper.{Proper};
ghost use Rattle.table.specs.Decode.{decode};
ghost use Rattle.table.specs.Table.{Table};
ghost use Rattle.table_read.specs.BlockSlots.{blocks_from, block_slot_in, Reaches, has_block};
ghost use Rattle.table_read.specs.Steps.{last_from, last_as, basic_run, displaced_run, overflow_run, Followed};

use crate::blocks::{overflow_front, owned_front, step_of};
use crate::places::{basic_slots, overflow_slots};
use crate::slots::Slots;
use keys::{BlockNumber, ListNumber, SlotNumber};
use settings::Layout;
use table::{Damage, Step};

// The last block of list i, whose overflow blocks start at `first`; each must have the list's number. At most nob blocks are
// followed, so that it ends on any bytes.
pub fn follow(t: &[u8], g: Layout, i: ListNumber, first: BlockNumber) -> Result<BlockNumber, Damage>
    requires { Table g t.now }
    ensures { result ≡ last_as g (last_from g i.0 g.nob (decode g t.now).overflow first.0) }
{
    let mut b = first;
    for _ in 0..g.nob {
        if b.0 >= g.nob {
            return Err(Damage);
        }
        let fields = owned_front(t, g, b);
        if fields.owner != i {
            return Err(Damage);
        }
        match step_of(fields.front, g.sio) {
            Step::Last => return Ok(b),
            Step::Further(next) => b = next,
            Step::Damage => return Err(Damage),
        }
    }
    Err(Damage)
}

// The first n slots of basic block i, as they stand: those of a list that has no overflow blocks.
pub fn basic_run(g: Layout, i: ListNumber, n: usize) -> Slots
    requires { Proper g × (i.0 < g.lists) }
    ensures { result ≡ basic_run g i.0 n }
{
    Slots {
        start: basic_slots(g, i),
        count: n,
        displaced: 0,
        value: 0,
    }
}

// The slots of basic block i, whose first L bits count as h: those of a list that has overflow blocks.
pub fn displaced_run(g: Layout, i: ListNumber, h: usize) -> Slots
    requires { Proper g × (i.0 < g.lists) }
    ensures { result ≡ displaced_run g i.0 h }
{
    Slots {
        start: basic_slots(g, i),
        count: g.sib,
        displaced: g.link,
        value: h as u64,
    }
}

// The slots in use of overflow block j, whose counter is c (clause 4.5).
pub fn overflow_run(g: Layout, j: BlockNumber, c: usize) -> Slots
    requires { Proper g × (j.0 < g.nob) × (c ≤ g.sio) }
    ensures { result ≡ overflow_run g j.0 c }
{
    Slots {
        start: overflow_slots(g, j),
        count: (c + 1).min(g.sio),
        displaced: 0,
        value: 0,
    }
}

// A slot of an overflow block.
#[derive(Clone, Copy)]
pub struct BlockSlot {
    pub block: BlockNumber,
    pub slot: SlotNumber,
}

// Place p of the overflow blocks from `first` on.
pub fn block_slot_of(t: &[u8], g: Layout, first: BlockNumber, p: usize) -> BlockSlot
    requires { Table g t.now × Reaches g (decode g t.now).overflow first.0 p }
    ensures { result ≡ block_slot_in g (blocks_from g (decode g t.now).overflow first.0) p }
{
    let mut b = first;
    let mut q = p;
    // No `for`: the number of turns is p / sio, a division by a setting, which takes longer than the few turns.
    while q >= g.sio {
        let Step::Further(next) = step_of(overflow_front(t, g, b), g.sio) else {
            break;
        };
        b = next;
        q -= g.sio;
    }
    BlockSlot {
        block: b,
        slot: SlotNumber(q),
    }
}

// Whether block f is one of the list's, from block `first` on.
pub fn list_has_block(t: &[u8], g: Layout, first: BlockNumber, f: BlockNumber) -> bool
    requires { Table g t.now × Followed g g.nob (decode g t.now).overflow first.0 }
    ensures { result ≡ has_block g g.nob (decode g t.now).overflow first.0 f.0 }
{
    let mut b = first;
    for _ in 0..g.nob {
        if b == f {
            return true;
        }
        let Step::Further(next) = step_of(overflow_front(t, g, b), g.sio) else {
            return false;
        };
        b = next;
    }
    false
}
