// No entry twice in a list: each entry is looked for among those before it in its block, and in the
// blocks that follow.
ghost use Rattle.std.specs.Prelude.{◌≡◌, ◌+◌, ◌*◌, ◌^◌, ◌≤◌, ◌<◌, length};
ghost use Rattle.laws.specs.Folds.{every_below};
ghost use Rattle.bits.specs.Field.{field};
ghost use Rattle.keys.specs.Key.{key_number, key_of};
ghost use Rattle.settings.specs.Proper.{Proper};
ghost use Rattle.table.specs.Decode.{decode};
ghost use Rattle.table.specs.Table.{Table};
ghost use Rattle.table.specs.Check.{has_entry, no_entry_twice};
ghost use Rattle.table_read.specs.Steps.{restored_bytes, FieldWithin, First, SlotsWithin, slots_in};
ghost use Rattle.table_read.specs.Rows.{Row};
ghost use Rattle.table_check.specs.Entries.{run_of, slots_from, slots_after, alone};

use keys::{BlockNumber, Key, SlotNumber};
use settings::Layout;
use table::Step;
use table_read::blocks::{overflow_front, step_of};
use table_read::lists::overflow_run;
use table_read::slots::{Slots, entry_at, key_at, scan, scan_displaced};

// The same as `entry_at`, with a way of its own for entries behind the displaced bits, as most are. It serves one loop, and
// is inlined there.
fn next_entry(t: &[u8], b: Slots, at: usize, n: usize) -> Key
    requires { FieldWithin t.now b at n × (n ≤ 128) }
    ensures { result ≡ key_of (field (restored_bytes t.now b) at n) }
{
    if at < b.start + b.displaced {
        return entry_at(&t[..], b, at, n);
    }
    key_at(t, at, n)
}

// The first of `count` slots that holds the entry, where their first bits are what they count as; count if none does.
fn scan_run(t: &[u8], b: Slots, count: usize, slot: usize, bie: usize, entry: Key) -> SlotNumber
    requires row { Row t.now b.start slot bie count × (key_number entry < 2 ^ bie) }
    requires displaced_bound { (b.start + b.displaced ≤ 8 * length t.now) × (b.displaced ≤ 16) × (b.value < 2 ^ b.displaced) }
    ensures { First (restored_bytes t.now b) b.start slot bie (key_number entry) count result.0 }
{
    if count == 0 {
        return SlotNumber(0);
    }
    let first = Slots { count, ..b };
    if b.displaced == 0 {
        return scan(&t[..], first, count, slot, bie, entry);
    }
    scan_displaced(&t[..], first, slot, bie, entry.high, entry.low)
}

// The slots in use in block b, whose counter is c.
fn run_of(g: Layout, b: BlockNumber, c: usize) -> Slots
    requires { Proper g × (b.0 < g.nob) }
    ensures { result ≡ run_of g b.0 c }
{
    overflow_run(g, b, c.min(g.sio))
}

// Whether the entry stands in the blocks from first on, of which at most `most` are followed.
fn held_from(t: &[u8], g: Layout, first: BlockNumber, most: usize, entry: Key) -> bool
    requires { Table g t.now × (key_number entry < 2 ^ g.bie) }
    ensures { result ≡ has_entry g (key_number entry) (slots_from g most (decode g t.now).overflow first.0) }
{
    let mut b = first;
    for _ in 0..most {
        if b.0 >= g.nob {
            return false;
        }
        let front = overflow_front(t, g, b);
        let run = run_of(g, b, front.counter);
        let j = scan(&t[..], run, g.sio, g.slot, g.bie, entry);
        if j.0 < run.count {
            return true;
        }
        let Step::Further(next) = step_of(front, g.sio) else {
            return false;
        };
        b = next;
    }
    false
}

// Whether the entry stands in the blocks that a step leads to.
fn held_after(t: &[u8], g: Layout, way: Step, most: usize, entry: Key) -> bool
    requires { Table g t.now × (key_number entry < 2 ^ g.bie) }
    ensures { result ≡ has_entry g (key_number entry) (slots_after g most (decode g t.now).overflow way) }
{
    let Step::Further(next) = way else {
        return false;
    };
    held_from(&t[..], g, next, most, entry)
}

// Whether each of the slots has an entry that stands neither in the slots before it nor in the blocks
// that a step behind them leads to.
pub(crate) fn slots_apart(t: &[u8], g: Layout, b: Slots, way: Step, most: usize) -> bool
    requires { Table g t.now × SlotsWithin g t.now b }
    ensures { result ≡ every_below b.count (alone g (slots_in g t.now b) (slots_after g most (decode g t.now).overflow way)) }
{
    for j in 0..b.count {
        let entry = next_entry(t, b, b.start + j * g.slot, g.bie);
        if scan_run(&t[..], b, j, g.slot, g.bie, entry).0 < j {
            return false;
        }
        if held_after(&t[..], g, way, most, entry) {
            return false;
        }
    }
    true
}

// Whether no entry stands twice in the blocks from first on.
pub(crate) fn blocks_apart(t: &[u8], g: Layout, first: BlockNumber) -> bool
    requires { Table g t.now }
    ensures { result ≡ no_entry_twice g (slots_from g g.nob (decode g t.now).overflow first.0) }
{
    let mut b = first;
    for left in (0..g.nob).rev() {
        if b.0 >= g.nob {
            return true;
        }
        let front = overflow_front(t, g, b);
        let way = step_of(front, g.sio);
        if !slots_apart(t, g, run_of(g, b, front.counter), way, left) {
            return false;
        }
        let Step::Further(next) = way else {
            return true;
        };
        b = next;
    }
    true
}
