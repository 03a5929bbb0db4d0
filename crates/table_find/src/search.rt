// An entry in a list.
ghost use Rattle.std.specs.Prelude.{◌≡◌, ◌+◌, ◌*◌, ◌^◌, ◌≤◌, ◌<◌, Ok, length};
ghost use Rattle.bits.specs.Field.{field};
ghost use Rattle.keys.specs.Key.{key_number};
ghost use Rattle.table.specs.Decode.{decode};
ghost use Rattle.table.specs.Table.{Table};
ghost use Rattle.table.specs.Find.{find_in};
ghost use Rattle.table.specs.Numbers.{basic_number};
ghost use Rattle.table_read.specs.BlockSlots.{number_from};
ghost use Rattle.table_read.specs.Steps.{slots_in, basic_run, Followed, Overflows, gather_from, find_from};
ghost use Rattle.table.specs.Answer.{said};
ghost use Rattle.table.specs.declared.answers.Word.TheVariants as word;

use keys::{BlockNumber, Key, ListNumber, SlotNumber};
use settings::{Layout, Refusal};
use table::{Said, Step, Word};
use table_read::blocks::{basic_front, overflow_front, overflow_link, step_of};
use table_read::lists::{basic_run, displaced_run, follow, overflow_run};
use table_read::numbers::{basic_number, overflow_number};
use table_read::slots::{confirm, label_at, looked_at, scan, scan_displaced};
use table_read::windows::candidate;

// Held, with the label of val bits from bit `at` on, in the slot of that number; n entries were compared.
fn held(t: &[u8], at: usize, val: usize, n: usize, slot: u64) -> Result<Said, Refusal>
    requires { (at + val ≤ 8 * length t.now) × (val ≤ 32) × (n ≤ 2 ^ 21) }
    ensures { result ≡ said word.Held (field t.now at val) n slot }
{
    Ok(Said {
        word: Word::Held,
        label: bits::get(t, at, val) as u32,
        compared: n as u32,
        slot,
    })
}

// Not there, among n entries.
fn not_held(n: usize) -> Result<Said, Refusal>
    requires { n ≤ 2 ^ 21 }
    ensures { result ≡ said word.None 0 n 0 }
{
    Ok(Said {
        word: Word::None,
        label: 0,
        compared: n as u32,
        slot: 0,
    })
}

// The entry in the overflow blocks from `first` on, where following them met no damage and k slots
// stand before them.
fn find_blocks(
    t: &[u8],
    g: Layout,
    first: BlockNumber,
    entry: Key,
    k: usize,
) -> Result<Said, Refusal>
    requires { Table g t.now × Followed g g.nob (decode g t.now).overflow first.0 × (key_number entry < 2 ^ g.bie) × (k ≤ 255) }
    ensures { result ≡ find_from g (number_from g g.nob (decode g t.now).overflow first.0) (key_number entry) (gather_from g g.nob (decode g t.now).overflow first.0) k }
{
    let mut b = first;
    let mut n = k;
    for _ in 0..g.nob {
        let front = overflow_front(t, g, b);
        let run = overflow_run(g, b, front.counter);
        let j = scan(&t[..], run, g.sio, g.slot, g.bie, entry);
        if j.0 < run.count {
            return held(
                t,
                run.start + j.0 * g.slot + g.bie,
                g.val,
                n + (j.0 + 1),
                overflow_number(g, b, j),
            );
        }
        n += run.count;
        let Step::Further(next) = step_of(front, g.sio) else {
            return not_held(n);
        };
        b = next;
    }
    not_held(n)
}

// The entry in the first slots of a basic block, which are all of the list. Its steps are those of `scan`, taken apart:
// a miss ends before anything is kept that only a hit needs.
fn find_short(t: &[u8], g: Layout, i: ListNumber, count: usize, entry: Key) -> Result<Said, Refusal>
    requires { Table g t.now × (i.0 < g.lists) × (count ≤ g.sib) × (key_number entry < 2 ^ g.bie) }
    ensures { result ≡ find_from g (basic_number g i.0) (key_number entry) (slots_in g t.now (basic_run g i.0 count)) 0 }
{
    let run = basic_run(g, i, count);
    let n = looked_at(count, g.sib);
    let from = SlotNumber(candidate(&t[..], run.start, n, g.slot, g.bie, entry.high, entry.low));
    if from.0 >= count {
        return not_held(count);
    }
    let j = confirm(&t[..], run, from, g.slot, g.bie, entry);
    if j.0 < count {
        return held(
            t,
            run.start + j.0 * g.slot + g.bie,
            g.val,
            j.0 + 1,
            basic_number(g, i, j),
        );
    }
    not_held(j.0)
}

// The entry in list i, whose overflow blocks start at `first`. They are followed to the last before
// anything is compared: its link has the first bits of the basic block's slots.
fn find_long(
    t: &[u8],
    g: Layout,
    i: ListNumber,
    first: BlockNumber,
    entry: Key,
) -> Result<Said, Refusal>
    requires { Table g t.now × (i.0 < g.lists) × Overflows g (decode g t.now) i.0 first.0 × (key_number entry < 2 ^ g.bie) }
    ensures { result ≡ find_in g (decode g t.now) i.0 (key_number entry) }
{
    let last = follow(t, g, i, first)?;
    let displaced = overflow_link(t, g, last);
    let run = displaced_run(g, i, displaced);
    let j = scan_displaced(&t[..], run, g.slot, g.bie, entry.high, entry.low);
    if j.0 < g.sib {
        return Ok(Said {
            word: Word::Held,
            label: label_at(t, run, run.start + j.0 * g.slot + g.bie, g.val),
            compared: (j.0 + 1) as u32,
            slot: basic_number(g, i, j),
        });
    }
    find_blocks(t, g, first, entry, g.sib)
}

// The entry in list i. Its basic counter is that of its entries, or sib + 1 where it overflows (clause 4.4).
pub fn find_in(t: &[u8], g: Layout, i: ListNumber, entry: Key) -> Result<Said, Refusal>
    requires { Table g t.now × (i.0 < g.lists) × (key_number entry < 2 ^ g.bie) }
    ensures { result ≡ find_in g (decode g t.now) i.0 (key_number entry) }
{
    let front = basic_front(t, g, i);
    if front.counter <= g.sib {
        return find_short(t, g, i, front.counter, entry);
    }
    if front.counter > g.sib + 1 {
        return Err(Refusal::Damage);
    }
    find_long(t, g, i, BlockNumber(front.link), entry)
}
