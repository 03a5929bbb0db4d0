// No damage in any list, and its zeros and entries as they should be; the free chain.
ghost use Rattle.std.specs.Prelude.{◌≡◌, ◌*◌, ◌≤◌, ◌<◌, length};
ghost use Rattle.table.specs.State.{basic_at};
ghost use Rattle.table.specs.Decode.{decode};
ghost use Rattle.table.specs.Table.{Table};
ghost use Rattle.table_check.specs.Walk.{found};
ghost use Rattle.table_check.specs.Lists.{short_sound, long_apart, list_walk, lists_walk, chain_walk};

use crate::bytes::zeros_after;
use crate::entries::{blocks_apart, slots_apart};
use crate::steps::{InChain, InList};
use crate::walk::mark_from;
use keys::{BlockNumber, ListNumber};
use settings::Layout;
use table::Step;
use table_read::blocks::{basic_counter, basic_head, free_start, overflow_link};
use table_read::lists::{basic_run, displaced_run, follow};
use table_read::places::basic_slots;

// List i, whose n entries are all in its basic block: the other slots are zero, no entry stands twice.
fn short_sound(t: &[u8], g: Layout, i: ListNumber, n: usize) -> bool
    requires { Table g t.now × (i.0 < g.lists) × (n ≡ (basic_at (decode g t.now).basic i.0).counter) × (n ≤ g.sib) }
    ensures { result ≡ short_sound g (basic_at (decode g t.now).basic i.0) }
{
    if !zeros_after(t, basic_slots(g, i), g.slot, n, g.sib) {
        return false;
    }
    slots_apart(t, g, basic_run(g, i, n), Step::Last, 0)
}

// The entries of list i, which overflows.
fn long_apart(t: &[u8], g: Layout, i: ListNumber) -> bool
    requires { Table g t.now × (i.0 < g.lists) }
    ensures { result ≡ long_apart g (decode g t.now).overflow i.0 (basic_at (decode g t.now).basic i.0) }
{
    let first = BlockNumber(basic_head(t, g, i));
    let Ok(last) = follow(t, g, i, first) else {
        return false;
    };
    let run = displaced_run(g, i, overflow_link(t, g, last));
    if !slots_apart(t, g, run, Step::Further(first), g.nob) {
        return false;
    }
    blocks_apart(t, g, first)
}

// List i, whose blocks are marked.
fn list_sound(t: &[u8], g: Layout, i: ListNumber, marks: &mut [u8]) -> bool
    requires { Table g t.now × (i.0 < g.lists) × (g.nob ≤ 8 * length marks.old) }
    ensures { list_walk g (decode g t.now).overflow i.0 (basic_at (decode g t.now).basic i.0) marks.old ≡ found result marks.new }
{
    let n = basic_counter(t, g, i);
    if n <= g.sib {
        return short_sound(t, g, i, n);
    }
    if n != g.sib + 1 {
        return false;
    }
    let first = BlockNumber(basic_head(t, g, i));
    if !mark_from(t, g, InList(i), first, marks) {
        return false;
    }
    long_apart(t, g, i)
}

pub(crate) fn lists_sound(t: &[u8], g: Layout, marks: &mut [u8]) -> bool
    requires { Table g t.now × (g.nob ≤ 8 * length marks.old) }
    ensures { lists_walk g (decode g t.now) g.lists marks.old ≡ found result marks.new }
{
    for i in 0..g.lists as usize {
        if !list_sound(t, g, ListNumber(i), marks) {
            return false;
        }
    }
    true
}

// The free chain, from the first free block on; the free start is nob if there is none.
pub(crate) fn chain_sound(t: &[u8], g: Layout, marks: &mut [u8]) -> bool
    requires { Table g t.now × (g.nob ≤ 8 * length marks.old) }
    ensures { chain_walk g (decode g t.now) marks.old ≡ found result marks.new }
{
    let first = free_start(t, g);
    let none = g.nob;
    if first.0 == none {
        return true;
    }
    mark_from(t, g, InChain, BlockNumber(first.0), marks)
}
