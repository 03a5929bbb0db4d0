// Delete (clauses 6.7 and 6.8): "none", or "gone" with the label, and the list's last entry takes the hole.
ghost use Rattle.std.specs.Prelude.{◌≡◌, ◌≤◌, ◌<◌, Ok, true, is_ok, length};
ghost use Rattle.settings.specs.Reply.{Gives};
ghost use Rattle.table.specs.State.{basic_at};
ghost use Rattle.table.specs.Decode.{decode};
ghost use Rattle.table.specs.Table.{Table};
ghost use Rattle.table_store.specs.Places.{Placed};
ghost use Rattle.table_delete.specs.DeleteSteps.{Removed};
ghost use Rattle.table.specs.Calls.{delete, key_call};
ghost use Rattle.table_find.specs.Seek.{open_of, sought_of};

use crate::shrink::{cannot_free, end_of, shrink};
use keys::{BlockNumber, Key, ListNumber, SlotNumber};
use settings::{Layout, Refusal, Settings};
use table::{Damage, Said, Word};
use table_find::{Sought, admit, find_in};
use table_read::blocks::{basic_counter, basic_head, overflow_counter};
use table_read::places::{basic_slot, overflow_slot};
use table_store::{clear, copy, get_slot, put_basic_counter, store_at_place};

// Place p of list i, which has c slots in use and no overflow blocks.
fn remove_short(t: &mut [u8], g: Layout, i: ListNumber, c: usize, p: usize)
    requires { Table g t.old × (i.0 < g.lists) × Placed g (decode g t.old) i.0 p × (c ≡ (basic_at (decode g t.old).basic i.0).counter) × (c ≤ g.sib) × (p < c) }
    ensures { Removed g t.old t.new i.0 p true }
{
    let last = basic_slot(g, i, SlotNumber(c - 1));
    let hole = basic_slot(g, i, SlotNumber(p));
    if hole != last {
        copy(t, last, hole, g.slot);
    }
    clear(t, last, g.slot);
    put_basic_counter(t, g, i, c - 1);
}

// Place p of list i, which overflows. Whether the last block can be freed is known before the first
// store: a refusal changes nothing.
fn remove_long(t: &mut [u8], g: Layout, i: ListNumber, p: usize) -> Result<(), Damage>
    requires { Table g t.old × (i.0 < g.lists) × Placed g (decode g t.old) i.0 p × (g.sib < (basic_at (decode g t.old).basic i.0).counter) }
    ensures { Removed g t.old t.new i.0 p (is_ok result) }
{
    let first = BlockNumber(basic_head(t, g, i));
    let end = end_of(t, g, first);
    let n = overflow_counter(t, g, end.last);
    if cannot_free(t, g, n) {
        return Err(Damage);
    }
    let at = overflow_slot(g, end.last, SlotNumber(n));
    let moved = get_slot(t, at, g.bie, g.val);
    store_at_place(t, g, i, first, end.last, p, moved);
    shrink(t, g, i, end.last, end.before, n);
    Ok(())
}

// Place p of list i, unless damage prevents it.
fn remove(t: &mut [u8], g: Layout, i: ListNumber, p: usize) -> Result<(), Damage>
    requires { Table g t.old × (i.0 < g.lists) × Placed g (decode g t.old) i.0 p }
    ensures { Removed g t.old t.new i.0 p (is_ok result) }
{
    let c = basic_counter(t, g, i);
    if c <= g.sib {
        remove_short(t, g, i, c, p);
        return Ok(());
    }
    remove_long(t, g, i, p)
}

// The key, once it was sought. What find compared is the place of the entry, counted from 1. The settings and the key are
// named by the contract alone.
pub fn delete_sought(
    t: &mut [u8],
    s: Settings,
    g: Layout,
    key: Key,
    v: Sought,
) -> Result<Said, Refusal>
    requires { (open_of s (length t.old) key ≡ Ok g) × (v ≡ sought_of s t.old key) }
    ensures { Gives (key_call s t.old delete key) result t.new }
{
    let list = v.place.list;
    let found = v.found?;
    let Word::Held = found.word else {
        return Ok(found);
    };
    remove(t, g, list, found.compared as usize - 1)?;
    Ok(Said {
        label: found.label,
        word: Word::Gone,
        compared: found.compared,
        slot: 0,
    })
}

// A refusal, and "none", leave every byte.
pub fn delete(s: Settings, t: &mut [u8], key: Key) -> Result<Said, Refusal>
    ensures { Gives (key_call s t.old delete key) result t.new }
{
    let g = s.layout()?;
    admit(s, g, t, key)?;
    let place = key.place(s);
    let found = find_in(t, g, place.list, place.entry);
    delete_sought(t, s, g, key, Sought { place, found })
}
