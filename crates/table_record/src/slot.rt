// Retrieve: from the number of a slot back to its key and label.
ghost use Rattle.std.specs.Prelude.{◌≡◌, ◌+◌, ◌*◌, ◌<◌, ◌≤◌, length};
ghost use Rattle.settings.specs.Proper.{Proper};
ghost use Rattle.table.specs.State.{basic_at};
ghost use Rattle.table.specs.Decode.{decode};
ghost use Rattle.table.specs.Table.{Table};
ghost use Rattle.table.specs.Numbers.{capacity};
ghost use Rattle.table.specs.Retrieve.{retrieve_basic, retrieve_overflow, retrieve_in};
ghost use Rattle.table.specs.Calls.{retrieve_call};
ghost use Rattle.table_record.specs.RecordSteps.{Ready, Stands};

use crate::found;
use keys::{BlockNumber, Key, ListNumber, SlotNumber};
use settings::{Layout, Refusal, Settings};
use table::{Damage, Record};
use table_read::blocks::{basic_counter, basic_front, basic_head, overflow_link, owned_front};
use table_read::lists::{displaced_run, follow, list_has_block};
use table_read::numbers::basic_capacity;
use table_read::places::{basic_slot, overflow_slot};
use table_read::slots::{Slots, entry_in, key_at, label_in};

// Where the slot of a number stands, one of three cases that are told apart once (an Option of two would be a tag in a tag): at a bit, as it stands; among slots whose first bits are displaced; or it is not in use.
#[derive(Clone, Copy)]
pub enum Spot {
    Slot {
        list: ListNumber,
        at: usize,
    },
    Under {
        list: ListNumber,
        run: Slots,
        slot: SlotNumber,
    },
    Empty,
}

// The key and the label in slot number n (clauses 6.18, 6.19), or none if it is not in use.
pub fn retrieve(s: Settings, t: &[u8], n: u64) -> Result<Option<Record>, Refusal>
    ensures { result ≡ retrieve_call s t.now n }
{
    let g = s.layout()?;
    if t.len() < g.bytes {
        return Err(Refusal::Short);
    }
    if n >= slot_count(g) {
        return Err(Refusal::Slot);
    }
    retrieve_in(s, t, g, n)
}

// How many slots the table has.
fn slot_count(g: Layout) -> u64
    requires { Proper g }
    ensures { result ≡ capacity g }
{
    basic_capacity(g) + (g.sio * g.nob) as u64
}

// The same of a table, and of a number that a slot has. The spot is found first and read here alone: what reads it is then
// called from one place, and is inlined.
fn retrieve_in(s: Settings, t: &[u8], g: Layout, n: u64) -> Result<Option<Record>, Refusal>
    requires { Ready s g t.now × (n < capacity g) }
    ensures { result ≡ retrieve_in s (decode g t.now) n }
{
    match spot_of(t, g, n)? {
        Spot::Slot { list, at } => {
            let entry = key_at(t, at, g.bie);
            let label = bits::get(t, at + g.bie, g.val) as u32;
            Ok(Some(found(s, list, entry, label)))
        }
        Spot::Under { list, run, slot } => {
            let entry = entry_in(&t[..], g, run, slot);
            let label = label_in(&t[..], g, run, slot);
            Ok(Some(found(s, list, entry, label)))
        }
        Spot::Empty => Ok(None),
    }
}

// Where slot number n stands; the slots of a damaged list stand nowhere. The numbers have less than 32 bits, in which a
// division is faster.
fn spot_of(t: &[u8], g: Layout, n: u64) -> Result<Spot, Damage>
    requires { Table g t.now × (n < capacity g) }
    ensures { Stands g t.now (λ s. retrieve_in s (decode g t.now) n) result }
{
    let basic = basic_capacity(g);
    let k = n as u32;
    if n < basic {
        let sib = g.sib as u32;
        return in_basic(
            t,
            g,
            ListNumber((k / sib) as usize),
            SlotNumber((k % sib) as usize),
        );
    }
    let m = k - basic as u32;
    let sio = g.sio as u32;
    in_overflow(
        t,
        g,
        BlockNumber((m / sio) as usize),
        SlotNumber((m % sio) as usize),
    )
}

// Where slot p of the basic block of list i stands.
fn in_basic(t: &[u8], g: Layout, i: ListNumber, p: SlotNumber) -> Result<Spot, Damage>
    requires { Table g t.now × (i.0 < g.lists) × (p.0 < g.sib) }
    ensures { Stands g t.now (λ s. retrieve_basic s (decode g t.now) i.0 p.0) result }
{
    let count = basic_counter(t, g, i);
    if count > g.sib {
        return in_long(t, g, i, p, count);
    }
    if p.0 >= count {
        return Ok(Spot::Empty);
    }
    Ok(Spot::Slot {
        list: i,
        at: basic_slot(g, i, p),
    })
}

// The same of a list whose counter says that there is more than its basic block. It is followed to its end first.
fn in_long(t: &[u8], g: Layout, i: ListNumber, p: SlotNumber, count: usize) -> Result<Spot, Damage>
    requires { Table g t.now × (i.0 < g.lists) × (p.0 < g.sib) × (count ≡ (basic_at (decode g t.now).basic i.0).counter) × (g.sib < count) }
    ensures { Stands g t.now (λ s. retrieve_basic s (decode g t.now) i.0 p.0) result }
{
    if count > g.sib + 1 {
        return Err(Damage);
    }
    let last = follow(t, g, i, BlockNumber(basic_head(t, g, i)))?;
    let at = basic_slot(g, i, p);
    let run = displaced_run(g, i, overflow_link(t, g, last));
    if at < run.start + g.link {
        return Ok(Spot::Under {
            list: i,
            run,
            slot: p,
        });
    }
    Ok(Spot::Slot { list: i, at })
}

// Where slot k of overflow block j stands. The list that the block names is followed to its end first; the block is in use
// if it is one of that list's.
fn in_overflow(t: &[u8], g: Layout, j: BlockNumber, k: SlotNumber) -> Result<Spot, Damage>
    requires { Table g t.now × (j.0 < g.nob) × (k.0 < g.sio) }
    ensures { Stands g t.now (λ s. retrieve_overflow s (decode g t.now) j.0 k.0) result }
{
    let fields = owned_front(t, g, j);
    let i = fields.owner;
    let front = basic_front(t, g, i);
    if front.counter <= g.sib {
        return Ok(Spot::Empty);
    }
    if front.counter > g.sib + 1 {
        return Err(Damage);
    }
    let first = BlockNumber(front.link);
    follow(t, g, i, first)?;
    if !list_has_block(t, g, first, j) {
        return Ok(Spot::Empty);
    }
    if k.0 > fields.front.counter {
        return Ok(Spot::Empty);
    }
    Ok(Spot::Slot {
        list: i,
        at: overflow_slot(g, j, k),
    })
}
