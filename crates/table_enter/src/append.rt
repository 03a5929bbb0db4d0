// A slot at the end of a list: into a block that has room, or into a block from the free chain.
ghost use Rattle.std.specs.Prelude.{◌≡◌, suc, ◌^◌, ◌≤◌, ◌<◌, Ok};
ghost use Rattle.keys.specs.Key.{key_number};
ghost use Rattle.table.specs.State.{basic_at, overflow_at};
ghost use Rattle.table.specs.Decode.{decode};
ghost use Rattle.table.specs.Table.{Table};
ghost use Rattle.table.specs.Take.{taken};
ghost use Rattle.table.specs.Answer.{said};
ghost use Rattle.table.specs.declared.answers.Word.TheVariants as word;
ghost use Rattle.table_store.specs.Stores.{Slotted, Stored};
ghost use Rattle.table_enter.specs.Enters.{slot_for, free_of, Appendable, Appended, EndsIn, Readable};

use keys::{BlockNumber, FreeStart, Key, ListNumber, SlotNumber};
use settings::{Layout, Refusal};
use table::{Said, Word};
use table_read::blocks::{basic_head, free_start, overflow_link};
use table_read::lists::{block_slot_of, list_has_block};
use table_read::numbers::{basic_number, overflow_number};
use table_read::places::{basic_slot, overflow_slot};
use table_store::{
    empty_block, put_basic_counter, put_basic_front, put_free_start, put_overflow_counter,
    put_overflow_front, put_slot,
};

// What is to be appended, once `compared` entries were found not to be it.
#[derive(Clone, Copy)]
pub struct Item {
    pub entry: Key,
    pub label: u32,
    pub compared: u32,
}

impl Item {
    // In the slot of that number.
    fn added(self, slot: u64) -> Said
        ensures { Ok result ≡ said word.Added self.label self.compared slot }
    {
        Said {
            word: Word::Added,
            label: self.label,
            compared: self.compared,
            slot,
        }
    }
}

// The first free block, and the free start once it is taken.
#[derive(Clone, Copy)]
pub struct Free {
    pub number: BlockNumber,
    pub next: FreeStart,
}

// The last free block links to itself, and behind it the free start is nob (clause 5.3).
fn first_free(t: &[u8], g: Layout) -> Result<Free, Refusal>
    requires { Table g t.now }
    ensures { result ≡ free_of g (decode g t.now) }
{
    let f = free_start(t, g);
    if f.0 > g.nob {
        return Err(Refusal::Damage);
    }
    if f.0 == g.nob {
        return Err(Refusal::NoBlock);
    }
    let number = BlockNumber(f.0);
    let link = overflow_link(t, g, number);
    if link >= g.nob {
        return Err(Refusal::Damage);
    }
    if link == f.0 {
        return Ok(Free {
            number,
            next: FreeStart(g.nob),
        });
    }
    Ok(Free {
        number,
        next: FreeStart(link),
    })
}

// The free block becomes the last block of list i, with one slot. The displaced bits are its link.
fn take(t: &mut [u8], g: Layout, i: ListNumber, free: Free, displaced: usize, v: Item)
    requires { Table g t.old × (i.0 < g.lists) × (free.number.0 < g.nob) × (displaced < 2 ^ g.link) × (free.next.0 ≤ g.nob) × Slotted g (key_number v.entry) v.label }
    ensures { Stored g t.old t.new (taken g i.0 free.number.0 free.next.0 displaced (slot_for g v) (decode g t.old)) }
{
    let f = free.number;
    let entry = v.entry;
    empty_block(t, g, f, displaced, i);
    put_slot(
        t,
        overflow_slot(g, f, SlotNumber(0)),
        g.bie,
        g.val,
        entry.high,
        entry.low,
        v.label,
    );
    put_free_start(t, g, free.next);
}

// The basic block has room.
fn append_room(t: &mut [u8], g: Layout, i: ListNumber, c: usize, v: Item) -> Said
    requires { Appendable g t.old i.0 v × (c < g.sib) × (c ≡ (basic_at (decode g t.old).basic i.0).counter) }
    ensures { Appended g t.old t.new i.0 v (Ok result) }
{
    let entry = v.entry;
    put_slot(
        t,
        basic_slot(g, i, SlotNumber(c)),
        g.bie,
        g.val,
        entry.high,
        entry.low,
        v.label,
    );
    put_basic_counter(t, g, i, c + 1);
    v.added(basic_number(g, i, SlotNumber(c)))
}

// The basic block is full, and gets its first overflow block.
fn append_first(t: &mut [u8], g: Layout, i: ListNumber, v: Item) -> Result<Said, Refusal>
    requires { Appendable g t.old i.0 v × ((basic_at (decode g t.old).basic i.0).counter ≡ g.sib) }
    ensures { Appended g t.old t.new i.0 v result }
{
    let free = first_free(t, g)?;
    let displaced = basic_head(t, g, i);
    put_basic_front(t, g, i, g.sib + 1, free.number.0);
    take(t, g, i, free, displaced, v);
    Ok(v.added(overflow_number(g, free.number, SlotNumber(0))))
}

// The last block, j, is full, and a further one follows it.
fn append_more(
    t: &mut [u8],
    g: Layout,
    i: ListNumber,
    h: BlockNumber,
    j: BlockNumber,
    v: Item,
) -> Result<Said, Refusal>
    requires { Appendable g t.old i.0 v × EndsIn g (decode g t.old) i.0 h.0 j.0 × (g.sio ≤ suc (overflow_at (decode g t.old).overflow j.0).counter) }
    ensures { Appended g t.old t.new i.0 v result }
{
    let free = first_free(t, g)?;
    if list_has_block(t, g, h, free.number) {
        return Err(Refusal::Damage);
    }
    let displaced = overflow_link(t, g, j);
    put_overflow_front(t, g, j, g.sio, free.number.0);
    take(t, g, i, free, displaced, v);
    Ok(v.added(overflow_number(g, free.number, SlotNumber(0))))
}

// The last block is j, with n entries: its counter is one less (clause 4.5).
fn append_overflow(
    t: &mut [u8],
    g: Layout,
    i: ListNumber,
    h: BlockNumber,
    j: BlockNumber,
    n: usize,
    v: Item,
) -> Result<Said, Refusal>
    requires { Appendable g t.old i.0 v × EndsIn g (decode g t.old) i.0 h.0 j.0 × (n ≡ suc (overflow_at (decode g t.old).overflow j.0).counter) }
    ensures { Appended g t.old t.new i.0 v result }
{
    if n < g.sio {
        let entry = v.entry;
        put_slot(
            t,
            overflow_slot(g, j, SlotNumber(n)),
            g.bie,
            g.val,
            entry.high,
            entry.low,
            v.label,
        );
        put_overflow_counter(t, g, j, n);
        return Ok(v.added(overflow_number(g, j, SlotNumber(n))));
    }
    append_more(t, g, i, h, j, v)
}

// At the end of list i, which can be followed there. All its entries were compared, so that their number says
// whether it overflows, and where its last entry stands.
pub(crate) fn append(t: &mut [u8], g: Layout, i: ListNumber, v: Item) -> Result<Said, Refusal>
    requires { Appendable g t.old i.0 v × Readable g (decode g t.old) i.0 v.compared }
    ensures { Appended g t.old t.new i.0 v result }
{
    let c = v.compared as usize;
    if c < g.sib {
        return Ok(append_room(t, g, i, c, v));
    }
    if c == g.sib {
        return append_first(t, g, i, v);
    }
    let h = BlockNumber(basic_head(t, g, i));
    let last = block_slot_of(t, g, h, c - g.sib - 1);
    append_overflow(t, g, i, h, last.block, last.slot.0 + 1, v)
}
