// A slot's value at a place of a list that overflows, displaced bits and all.
ghost use Rattle.std.specs.Prelude.{◌≡◌, ◌<◌};
ghost use Rattle.keys.specs.Key.{key_number};
ghost use Rattle.table.specs.State.{slot_of};
ghost use Rattle.table.specs.Decode.{decode};
ghost use Rattle.table.specs.Table.{Table};
ghost use Rattle.table_store.specs.Stores.{Slotted, Stored};
ghost use Rattle.table_store.specs.Places.{place_from, store_from, Storable};

use crate::fields::put_overflow_link;
use crate::slots::{put_slot, store_over_displaced};
use keys::{BlockNumber, ListNumber, SlotNumber};
use settings::Layout;
use table::Slot;
use table_read::blocks::overflow_link;
use table_read::lists::{block_slot_of, displaced_run};
use table_read::places::{basic_slot, basic_slots, overflow_slot};

// Where place p of list i begins, whose overflow blocks go from h to l.
fn place_at(t: &[u8], g: Layout, i: ListNumber, h: BlockNumber, l: BlockNumber, p: usize) -> usize
    requires { Table g t.now × Storable g (decode g t.now) i.0 h.0 l.0 p }
    ensures { result ≡ place_from g i.0 h.0 p (decode g t.now) }
{
    if p < g.sib {
        return basic_slot(g, i, SlotNumber(p));
    }
    let s = block_slot_of(t, g, h, p - g.sib);
    overflow_slot(g, s.block, s.slot)
}

// The slot v into place p of list i, whose overflow blocks go from h to l. Under displaced bits, what these are then goes
// to the link of block l.
pub fn store_at_place(
    t: &mut [u8],
    g: Layout,
    i: ListNumber,
    h: BlockNumber,
    l: BlockNumber,
    p: usize,
    v: Slot,
)
    requires { Table g t.old × Storable g (decode g t.old) i.0 h.0 l.0 p × Slotted g (key_number v.entry) v.label }
    ensures { Stored g t.old t.new (store_from g i.0 h.0 l.0 p (slot_of g (key_number v.entry) v.label) (decode g t.old)) }
{
    let at = place_at(t, g, i, h, l, p);
    if at >= basic_slots(g, i) + g.link {
        let entry = v.entry;
        put_slot(t, at, g.bie, g.val, entry.high, entry.low, v.label);
        return;
    }
    let old = overflow_link(t, g, l);
    let run = displaced_run(g, i, old);
    let new = store_over_displaced(t, run, at, g.bie, g.val, v);
    put_overflow_link(t, g, l, new);
}
