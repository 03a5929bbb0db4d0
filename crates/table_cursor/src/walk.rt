// From record to record.
ghost use Rattle.std.specs.Prelude.{◌≡◌, ◌+◌, ◌*◌, ◌<◌, ◌≤◌, length, get_or};
ghost use Rattle.settings.specs.Proper.{Proper};
ghost use Rattle.table.specs.Decode.{decode};
ghost use Rattle.table.specs.Table.{Table};
ghost use Rattle.table.specs.Follow.{content};
ghost use Rattle.table_read.specs.Steps.{SlotsWithin, slots_in, Followed, OwnFollowed, Overflows, gather_from};
ghost use Rattle.plain_set.specs.Rebuilt.{slots_of};
ghost use Rattle.plain_set.specs.Nth.{Undamaged};
ghost use Rattle.table_cursor.specs.Ahead.{Leads, pairs_from, ahead, Good, Before, Gives, Answers};
ghost use Rattle.table_cursor.specs.Steps.{Begins, pairs_behind, Reaches, Holds};

use crate::places::{Cursor, Next};
use keys::{BlockNumber, Key, ListNumber, SlotNumber};
use settings::Layout;
use table::{Slot, Step};
use table_read::blocks::{basic_front, overflow_front, overflow_link, step_of};
use table_read::lists::{basic_run, displaced_run, follow, overflow_run};
use table_read::slots::{Slots, entry_in, key_at, label_in};

// The next record, and the cursor behind it; there is none at the table's end.
pub fn next(t: &[u8], g: Layout, c: Cursor) -> Option<Next>
    requires { Table g t.now × Undamaged g (decode g t.now) × Good g t.now c }
    ensures { Answers g t.now (λ s. ahead s t.now c) result }
{
    let mut d = c;
    if d.passed >= d.run.count {
        d = moved(t, g, d.list, d.behind);
        if d.passed >= d.run.count {
            return None;
        }
    }
    Some(taken(t, g, d))
}

// The cursor at the first record behind a run of list i, from which the step is `behind`; at the end of its run, there is
// none. No Option: `next` asks this cursor what it has asked the one before.
fn moved(t: &[u8], g: Layout, i: ListNumber, behind: Step) -> Cursor
    requires { Table g t.now × Undamaged g (decode g t.now) × (i.0 < g.lists) × Leads g (decode g t.now).overflow behind }
    ensures { Reaches g t.now (λ s. pairs_behind s g t.now i.0 behind) result }
{
    if let Step::Further(b) = behind {
        return enter_block(t, g, i, b);
    }
    next_from(t, g, i.0 + 1)
}

// The cursor at the first record of the lists from list i on; at the end of its run, there is none.
fn next_from(t: &[u8], g: Layout, i: usize) -> Cursor
    requires { Table g t.now × Undamaged g (decode g t.now) × (i ≤ g.lists) }
    ensures { Reaches g t.now (λ s. pairs_from s t.now i) result }
{
    for j in i..g.lists as usize {
        let c = enter(t, g, ListNumber(j));
        if 0 < c.run.count {
            return c;
        }
    }
    Cursor {
        list: ListNumber(g.lists as usize),
        passed: 0,
        run: Slots {
            start: 0,
            count: 0,
            displaced: 0,
            value: 0,
        },
        behind: Step::Last,
    }
}

// The record at the cursor, which is at one.
fn taken(t: &[u8], g: Layout, c: Cursor) -> Next
    requires { Table g t.now × Good g t.now c × (c.passed < c.run.count) }
    ensures { Gives g t.now (λ s. ahead s t.now c) result }
{
    let n = c.passed;
    let slot = held(t, g, c.run, SlotNumber(n));
    Next {
        list: c.list,
        entry: slot.entry,
        label: slot.label,
        cursor: Cursor {
            list: c.list,
            passed: n + 1,
            run: c.run,
            behind: apart(c.behind),
        },
    }
}

// The step, taken apart and put together: copied whole, it takes the bytes between its tag and its number along, and a loop
// that keeps it waits for them.
fn apart(n: Step) -> Step
    ensures { result ≡ n }
{
    match n {
        Step::Last => Step::Last,
        Step::Further(b) => Step::Further(b),
        Step::Damage => Step::Damage,
    }
}

// What slot j holds. Behind the displaced bits, where most slots are, it is read as it stands.
fn held(t: &[u8], g: Layout, b: Slots, j: SlotNumber) -> Slot
    requires { Proper g × SlotsWithin g t.now b × (j.0 < b.count) }
    ensures { Holds g (get_or (slots_in g t.now b) j.0 0) result }
{
    let at = b.start + j.0 * g.slot;
    if at < b.start + b.displaced {
        return Slot {
            entry: entry_in(&t[..], g, b, j),
            label: label_in(&t[..], g, b, j),
        };
    }
    Slot {
        entry: key_at(t, at, g.bie),
        label: bits::get(t, at + g.bie, g.val) as u32,
    }
}

// The cursor in list i, before its entry n. It does not call `enter`, which thus serves one loop and is inlined there.
pub(crate) fn at(t: &[u8], g: Layout, i: ListNumber, n: usize) -> Cursor
    requires { Table g t.now × Undamaged g (decode g t.now) × (i.0 < g.lists) × (n ≤ length (slots_of (content g (decode g t.now) i.0))) }
    ensures { Before g t.now i.0 n result }
{
    let front = basic_front(t, g, i);
    if front.counter <= g.sib {
        let run = basic_run(g, i, front.counter);
        return Cursor {
            list: i,
            passed: n,
            run,
            behind: Step::Last,
        };
    }
    at_long(t, g, i, BlockNumber(front.link), n)
}

// The same of a list whose overflow blocks start at `first`.
fn at_long(t: &[u8], g: Layout, i: ListNumber, first: BlockNumber, n: usize) -> Cursor
    requires { Table g t.now × (i.0 < g.lists) × Overflows g (decode g t.now) i.0 first.0 × OwnFollowed g i.0 g.nob (decode g t.now).overflow first.0 × (n ≤ length (slots_of (content g (decode g t.now) i.0))) }
    ensures { Before g t.now i.0 n result }
{
    let mut c = enter_long(t, g, i, first);
    let mut left = n;
    // A `while`, since no number is counted: the blocks themselves end it.
    while c.run.count < left {
        let Step::Further(b) = c.behind else {
            break;
        };
        left -= c.run.count;
        c = enter_block(t, g, i, b);
    }
    Cursor {
        list: i,
        passed: left,
        run: c.run,
        behind: c.behind,
    }
}

// The cursor at the start of list i.
fn enter(t: &[u8], g: Layout, i: ListNumber) -> Cursor
    requires { Table g t.now × Undamaged g (decode g t.now) × (i.0 < g.lists) }
    ensures { Begins g t.now i.0 (slots_of (content g (decode g t.now) i.0)) result }
{
    let front = basic_front(t, g, i);
    if front.counter <= g.sib {
        let run = basic_run(g, i, front.counter);
        return Cursor {
            list: i,
            passed: 0,
            run,
            behind: Step::Last,
        };
    }
    enter_long(t, g, i, BlockNumber(front.link))
}

// The cursor at the start of list i, whose overflow blocks start at `first`. The displaced bits are fetched from the last
// of them; there is one, since the list is not damaged.
fn enter_long(t: &[u8], g: Layout, i: ListNumber, first: BlockNumber) -> Cursor
    requires { Table g t.now × (i.0 < g.lists) × Overflows g (decode g t.now) i.0 first.0 × OwnFollowed g i.0 g.nob (decode g t.now).overflow first.0 }
    ensures { Begins g t.now i.0 (slots_of (content g (decode g t.now) i.0)) result }
{
    let Ok(last) = follow(t, g, i, first) else {
        return Cursor {
            list: i,
            passed: 0,
            run: basic_run(g, i, 0),
            behind: Step::Further(first),
        };
    };
    let run = displaced_run(g, i, overflow_link(t, g, last));
    Cursor {
        list: i,
        passed: 0,
        run,
        behind: Step::Further(first),
    }
}

// The cursor at the start of overflow block b of list i.
fn enter_block(t: &[u8], g: Layout, i: ListNumber, b: BlockNumber) -> Cursor
    requires { Table g t.now × (i.0 < g.lists) × Followed g g.nob (decode g t.now).overflow b.0 }
    ensures { Begins g t.now i.0 (gather_from g g.nob (decode g t.now).overflow b.0) result × (0 < result.run.count) }
{
    let front = overflow_front(t, g, b);
    let run = overflow_run(g, b, front.counter);
    Cursor {
        list: i,
        passed: 0,
        run,
        behind: step_of(front, g.sio),
    }
}
