// The label of a place of a list: its val bits alone, never the entry again. Where a list overflows, a label can lie under
// the number of its first block (clause 4.9).
ghost use Rattle.std.specs.Prelude.{◌≡◌, ◌+◌, ◌≤◌, ◌<◌};
ghost use Rattle.table.specs.State.{basic_at};
ghost use Rattle.table.specs.Decode.{decode};
ghost use Rattle.table_read.specs.Places.{basic_slot};
ghost use Rattle.table_relabel.specs.Relabels.{Relabellable, Relabelled};

use keys::{BlockNumber, Key, ListNumber, SlotNumber};
use settings::Layout;
use table_read::blocks::{basic_front, basic_head, overflow_link};
use table_read::lists::{block_slot_of, displaced_run, follow};
use table_read::places::{basic_slot, basic_slots, overflow_slot};
use table_store::{Slot, put_overflow_link, store_over_displaced};

// Place p of list i, which is in an overflow block.
fn relabel_overflow(t: &mut [u8], g: Layout, i: ListNumber, p: usize, label: u32)
    requires { Relabellable g t.old i.0 p label × (g.sib ≤ p) }
    ensures { Relabelled g t.old t.new i.0 p label }
{
    let first = BlockNumber(basic_head(t, g, i));
    let s = block_slot_of(t, g, first, p - g.sib);
    let at = overflow_slot(g, s.block, s.slot);
    bits::put(t, at + g.bie, g.val, u64::from(label));
}

// Place p of list i, whose label, at bit `at`, lies under the number of the list's first block: the bits that are displaced then
// go to the link of its last one. Its overflow blocks begin at block `first`.
fn relabel_displaced(
    t: &mut [u8],
    g: Layout,
    i: ListNumber,
    first: BlockNumber,
    p: usize,
    at: usize,
    label: u32,
)
    requires { Relabellable g t.old i.0 p label × (p < g.sib) × (at ≡ basic_slot g i.0 p + g.bie) × (g.sib < (basic_at (decode g t.old).basic i.0).counter) × (first.0 ≡ (basic_at (decode g t.old).basic i.0).head) }
    ensures { Relabelled g t.old t.new i.0 p label }
{
    let Ok(last) = follow(t, g, i, first) else {
        return;
    };
    let old = overflow_link(t, g, last);
    let run = displaced_run(g, i, old);
    let alone = Slot {
        entry: Key { high: 0, low: 0 },
        label: label,
    };
    let new = store_over_displaced(t, run, at, 0, g.val, alone);
    put_overflow_link(t, g, last, new);
}

// Place p of list i, whose label begins at bit `at`, in the first L bits of the basic block's slots.
fn relabel_first(t: &mut [u8], g: Layout, i: ListNumber, p: usize, at: usize, label: u32)
    requires { Relabellable g t.old i.0 p label × (p < g.sib) × (at ≡ basic_slot g i.0 p + g.bie) }
    ensures { Relabelled g t.old t.new i.0 p label }
{
    let front = basic_front(t, g, i);
    if front.counter <= g.sib {
        bits::put(t, at, g.val, u64::from(label));
        return;
    }
    relabel_displaced(t, g, i, BlockNumber(front.link), p, at, label);
}

// Place p of list i, in its basic block, where no label can lie under a block's number: an entry has as many bits, or more.
// Most labels are stored here. Behind so many tests LLVM takes the call for rare, and would not inline it by itself.
#[inline(always)]
pub(crate) fn relabel_plain(t: &mut [u8], g: Layout, i: ListNumber, p: usize, label: u32)
    requires { Relabellable g t.old i.0 p label × (p < g.sib) × (g.link ≤ g.bie) }
    ensures { Relabelled g t.old t.new i.0 p label }
{
    let at = basic_slot(g, i, SlotNumber(p)) + g.bie;
    bits::put(t, at, g.val, u64::from(label));
}

// Place p of list i.
pub(crate) fn relabel_place(t: &mut [u8], g: Layout, i: ListNumber, p: usize, label: u32)
    requires { Relabellable g t.old i.0 p label }
    ensures { Relabelled g t.old t.new i.0 p label }
{
    if p >= g.sib {
        relabel_overflow(t, g, i, p, label);
        return;
    }
    let begin = basic_slot(g, i, SlotNumber(p)) + g.bie;
    if begin < basic_slots(g, i) + g.link {
        relabel_first(t, g, i, p, begin, label);
        return;
    }
    bits::put(t, begin, g.val, u64::from(label));
}
