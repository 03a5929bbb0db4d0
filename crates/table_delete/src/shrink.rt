// The last slot of an overflowing list off, and its block freed if that was its only one.
ghost use Rattle.std.specs.Prelude.{◌≡◌, ◌≤◌, ◌<◌};
ghost use Rattle.table.specs.State.{overflow_at};
ghost use Rattle.table.specs.Updates.{over_overflow};
ghost use Rattle.table.specs.Decode.{decode};
ghost use Rattle.table.specs.Table.{Table, Within};
ghost use Rattle.table.specs.Take.{link_free, freed};
ghost use Rattle.table_read.specs.Steps.{Followed};
ghost use Rattle.table_read.specs.BlockSlots.{blocks_from};
ghost use Rattle.table.specs.Delete.{last_slot_off, shrink_at, cannot_free};
ghost use Rattle.table_delete.specs.DeleteSteps.{end_in, Shrinkable};
ghost use Rattle.table_store.specs.Stores.{Stored};
ghost use Rattle.table.specs.declared.step.Before.TheVariants as prior;

use keys::{BlockNumber, FreeStart, ListNumber, SlotNumber};
use settings::Layout;
use table::{Before, Step};
use table_read::blocks::{free_start, overflow_front, overflow_link, step_of};
use table_read::places::{counter_at, overflow_slot};
use table_store::{
    clear_and_put, empty_block, put_basic_front, put_free_start, put_overflow_front,
};

// The last block of a list, and what stands before it.
#[derive(Clone, Copy)]
pub struct End {
    pub last: BlockNumber,
    pub before: Before,
}

// The end of the list whose overflow blocks start at `first`.
pub(crate) fn end_of(t: &[u8], g: Layout, first: BlockNumber) -> End
    requires { Table g t.now × Followed g g.nob (decode g t.now).overflow first.0 }
    ensures { result ≡ end_in g prior.Basic (blocks_from g (decode g t.now).overflow first.0) }
{
    let mut b = first;
    let mut before = Before::Basic;
    for _ in 0..g.nob {
        let Step::Further(next) = step_of(overflow_front(t, g, b), g.sio) else {
            break;
        };
        before = Before::Block(b);
        b = next;
    }
    End { last: b, before }
}

// Whether the last block, whose counter is n, would be freed and cannot: the free start is above nob (clause 5.4).
pub(crate) fn cannot_free(t: &[u8], g: Layout, n: usize) -> bool
    requires { Table g t.now }
    ensures { result ≡ cannot_free g n (decode g t.now) }
{
    if n > 0 {
        return false;
    }
    free_start(t, g).0 > g.nob
}

// The last slot of block j off, whose counter is n.
fn drop_last_slot(t: &mut [u8], g: Layout, j: BlockNumber, n: usize)
    requires { Table g t.old × (j.0 < g.nob) × (0 < n) × (n < g.sio) × (n ≡ (overflow_at (decode g t.old).overflow j.0).counter) }
    ensures { Stored g t.old t.new (over_overflow j.0 last_slot_off (decode g t.old)) }
{
    clear_and_put(
        t,
        overflow_slot(g, j, SlotNumber(n)),
        g.slot,
        counter_at(g.overflow, j.0),
        g.overflow.counter,
        n - 1,
    );
}

// The link of block j at the front of a free chain that starts at f. The last free block links to itself.
fn link_free(g: Layout, f: FreeStart, j: BlockNumber) -> BlockNumber
    ensures { result.0 ≡ link_free g f.0 j.0 }
{
    if f.0 == g.nob {
        return j;
    }
    BlockNumber(f.0)
}

// An emptied overflow block goes to the front of the free chain (clause 5.4).
fn free_block(t: &mut [u8], g: Layout, j: BlockNumber)
    requires { Table g t.old × (j.0 < g.nob) × ((decode g t.old).free ≤ g.nob) }
    ensures { Stored g t.old t.new (freed g j.0 (decode g t.old)) }
{
    let f = free_start(t, g);
    empty_block(t, g, j, link_free(g, f, j).0, ListNumber(0));
    put_free_start(t, g, FreeStart(j.0));
}

// The last slot off, where the last block's counter is n. An emptied block hands the displaced bits, its link, to the
// block before it, or back to the basic block.
pub(crate) fn shrink(
    t: &mut [u8],
    g: Layout,
    i: ListNumber,
    last: BlockNumber,
    before: Before,
    n: usize,
)
    requires { Table g t.old × (i.0 < g.lists) × Shrinkable g (decode g t.old) last.0 × (n ≡ (overflow_at (decode g t.old).overflow last.0).counter) × Within g before }
    ensures { Stored g t.old t.new (shrink_at g i.0 last.0 before (decode g t.old)) }
{
    if n > 0 {
        drop_last_slot(t, g, last, n);
        return;
    }
    let link = overflow_link(t, g, last);
    match before {
        Before::Basic => put_basic_front(t, g, i, g.sib, link),
        Before::Block(p) => put_overflow_front(t, g, p, g.sio - 1, link),
    }
    free_block(t, g, last);
}
