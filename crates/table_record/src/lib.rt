// Record: the nth record of the table. Retrieve: the record in the slot of a number.
#![tactic(auto)]

mod slot;

ghost use Rattle.std.specs.Prelude.{◌≡◌, ◌^◌, ◌<◌};
ghost use Rattle.std.specs.Result.{IfOk};
ghost use Rattle.settings.specs.Proper.{Proper};
ghost use Rattle.settings.specs.Sizes.{bie};
ghost use Rattle.settings.specs.Legal.{Legal};
ghost use Rattle.keys.specs.Key.{key_number};
ghost use Rattle.table.specs.Decode.{decode};
ghost use Rattle.table.specs.Table.{Table};
ghost use Rattle.table.specs.Follow.{content};
ghost use Rattle.table.specs.Record.{record_in};
ghost use Rattle.table.specs.Calls.{record_call};
ghost use Rattle.table_read.specs.Steps.{SlotsWithin, slots_in, Followed, Overflows, gather_from};
ghost use Rattle.table_record.specs.RecordSteps.{Ready, Bounded, found_record, nth_of, nth_in};

use keys::{BlockNumber, Key, ListNumber, Place, SlotNumber};
use settings::{Layout, Refusal, Settings};
pub use slot::retrieve;
use table::{Damage, Record, Step};
use table_read::blocks::{basic_counter, basic_head, overflow_front, overflow_link, step_of};
use table_read::lists::{basic_run, displaced_run, follow, overflow_run};
use table_read::slots::{Slots, entry_in, label_in};

// What stands at a number in a row of slots: an entry with its label, or nothing, with the number that
// is left behind the row. No Option or Result: what is past is neither missing nor an error, and goes on to the next row.
#[derive(Clone, Copy)]
pub enum Nth {
    Slot { entry: Key, label: u32 },
    Past(u64),
}

// Record n (clause 6.9): the nth entry from 0, or none.
pub fn record(s: Settings, t: &[u8], n: u64) -> Result<Option<Record>, Refusal>
    ensures { result ≡ record_call s t.now n }
{
    let g = s.layout()?;
    if t.len() < g.bytes {
        return Err(Refusal::Short);
    }
    record_in(s, t, g, n)
}

// Record n. It follows lists only up to that record's list.
fn record_in(s: Settings, t: &[u8], g: Layout, n: u64) -> Result<Option<Record>, Refusal>
    requires { Ready s g t.now }
    ensures { result ≡ record_in s (decode g t.now) n }
{
    let mut m = n;
    for i in 0..g.lists as usize {
        match nth_in(t, g, ListNumber(i), m)? {
            Nth::Slot { entry, label } => return Ok(Some(found(s, ListNumber(i), entry, label))),
            Nth::Past(left) => m = left,
        }
    }
    Ok(None)
}

// The record of an entry in list i.
fn found(s: Settings, i: ListNumber, entry: Key, label: u32) -> Record
    requires { Legal s × (i.0 < 2 ^ s.bii) × (key_number entry < 2 ^ bie s) }
    ensures { result ≡ found_record s i.0 entry label }
{
    let place = Place { list: i, entry };
    Record {
        key: place.key(s),
        label,
    }
}

// Entry n of list i, which is followed to its end before anything is read.
fn nth_in(t: &[u8], g: Layout, i: ListNumber, n: u64) -> Result<Nth, Damage>
    requires { Table g t.now × (i.0 < g.lists) }
    ensures { (result ≡ nth_in g (content g (decode g t.now) i.0) n) × IfOk result (Bounded g) }
{
    let c = basic_counter(t, g, i);
    if c <= g.sib {
        return Ok(nth_of(t, g, basic_run(g, i, c), n));
    }
    if c > g.sib + 1 {
        return Err(Damage);
    }
    nth_long(t, g, i, BlockNumber(basic_head(t, g, i)), n)
}

// Entry n of list i, whose overflow blocks start at `first`.
fn nth_long(t: &[u8], g: Layout, i: ListNumber, first: BlockNumber, n: u64) -> Result<Nth, Damage>
    requires { Table g t.now × (i.0 < g.lists) × Overflows g (decode g t.now) i.0 first.0 }
    ensures { (result ≡ nth_in g (content g (decode g t.now) i.0) n) × IfOk result (Bounded g) }
{
    let last = follow(t, g, i, first)?;
    let sib = g.sib as u64;
    if n < sib {
        return Ok(nth_of(t, g, displaced_run(g, i, overflow_link(t, g, last)), n));
    }
    Ok(nth_blocks(t, g, first, n - sib))
}

// Entry n of the overflow blocks from `first` on, where following them met no damage.
fn nth_blocks(t: &[u8], g: Layout, first: BlockNumber, n: u64) -> Nth
    requires { Table g t.now × Followed g g.nob (decode g t.now).overflow first.0 }
    ensures { (result ≡ nth_of g (gather_from g g.nob (decode g t.now).overflow first.0) n) × Bounded g result }
{
    let mut b = first;
    let mut m = n;
    for _q in 0..g.nob {
        let front = overflow_front(t, g, b);
        let run = overflow_run(g, b, front.counter);
        let count = run.count as u64;
        if m < count {
            return nth_of(t, g, run, m);
        }
        m -= count;
        let Step::Further(next) = step_of(front, g.sio) else {
            return Nth::Past(m);
        };
        b = next;
    }
    Nth::Past(m)
}

// Entry n of slots in a row.
fn nth_of(t: &[u8], g: Layout, b: Slots, n: u64) -> Nth
    requires { Proper g × SlotsWithin g t.now b }
    ensures { (result ≡ nth_of g (slots_in g t.now b) n) × Bounded g result }
{
    let count = b.count as u64;
    if n >= count {
        return Nth::Past(n - count);
    }
    let j = SlotNumber(n as usize);
    Nth::Slot {
        entry: entry_in(t, g, b, j),
        label: label_in(t, g, b, j),
    }
}
