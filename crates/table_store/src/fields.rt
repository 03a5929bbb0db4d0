// The free start, and the first fields of blocks: counters, links and owners.
ghost use Rattle.std.specs.Prelude.{◌≡◌, suc, ◌+◌, ◌^◌, ◌≤◌, ◌<◌};
ghost use Rattle.table.specs.Updates.{with_front, with_basic_front, over_basic, over_overflow};
ghost use Rattle.bits.specs.Put.{put_field};
ghost use Rattle.table.specs.State.{empty_block};
ghost use Rattle.table.specs.Decode.{block_at, decode};
ghost use Rattle.table.specs.Table.{Table};
ghost use Rattle.table_read.specs.Places.{BlockIn};
ghost use Rattle.table_store.specs.Stores.{free_put, basic_counter_put, overflow_counter_put, link_put, Stored};

use crate::zeros::clear_and_put;
use bits::join;
use keys::{BlockNumber, FreeStart, ListNumber};
use settings::{Blocks, Layout};
use table_read::places::{counter_at, link_at};

pub fn put_free_start(t: &mut [u8], g: Layout, f: FreeStart)
    requires { Table g t.old × (f.0 < 2 ^ g.basic.start) }
    ensures { t.new ≡ free_put g t.old f.0 }
{
    bits::put(t, 0, g.basic.start, f.0 as u64);
}

// The counter of block i becomes n.
fn put_counter(t: &mut [u8], b: Blocks, i: usize, n: usize)
    requires { BlockIn t.old b i 0 × (n < 2 ^ b.counter) }
    ensures { t.new ≡ put_field t.old (block_at b i) b.counter n }
{
    bits::put_short(t, counter_at(b, i), b.counter, n as u64);
}

// Two names for `put_counter`: which blocks there are, and what of the state changes, only a contract for each can say. A
// trait over both kinds would need a member for each of these, and a law that ties it to the bytes.
pub fn put_basic_counter(t: &mut [u8], g: Layout, i: ListNumber, n: usize)
    requires { Table g t.old × (i.0 < g.lists) × (n < 2 ^ g.basic.counter) }
    ensures { t.new ≡ basic_counter_put g t.old i.0 n }
{
    put_counter(t, g.basic, i.0, n);
}

pub fn put_overflow_counter(t: &mut [u8], g: Layout, j: BlockNumber, n: usize)
    requires { Table g t.old × (j.0 < g.nob) × (n < 2 ^ g.overflow.counter) }
    ensures { t.new ≡ overflow_counter_put g t.old j.0 n }
{
    put_counter(t, g.overflow, j.0, n);
}

// The link of overflow block j becomes l, a block's number or displaced bits.
pub fn put_overflow_link(t: &mut [u8], g: Layout, j: BlockNumber, l: usize)
    requires { Table g t.old × (j.0 < g.nob) × (l < 2 ^ g.link) }
    ensures { t.new ≡ link_put g t.old j.0 l }
{
    bits::put(t, link_at(g.overflow, j.0), g.link, l as u64);
}

// The counter of block i becomes n, and the `link` bits behind it l: side by side, they are one store.
fn put_front(t: &mut [u8], b: Blocks, i: usize, link: usize, n: usize, l: usize)
    requires { BlockIn t.old b i link × (n < 2 ^ b.counter) × (l < 2 ^ link) }
    ensures { t.new ≡ put_field (put_field t.old (block_at b i) b.counter n) (block_at b i + b.counter) link l }
{
    let both = join(n as u64, link, l as u64);
    bits::put_short(t, counter_at(b, i), b.counter + link, both);
}

// The counter of basic block i becomes n, and the first L bits of its slots h: a block's number, or the bits that it
// displaced. It and the next are two names for `put_front`, as those above: also their counters have other bounds.
pub fn put_basic_front(t: &mut [u8], g: Layout, i: ListNumber, n: usize, h: usize)
    requires { Table g t.old × (i.0 < g.lists) × (n ≤ suc g.sib) × (h < 2 ^ g.link) }
    ensures { Stored g t.old t.new (over_basic i.0 (with_basic_front n h) (decode g t.old)) }
{
    put_front(t, g.basic, i.0, g.link, n, h);
}

// The counter and the link of overflow block j become n and l.
pub fn put_overflow_front(t: &mut [u8], g: Layout, j: BlockNumber, n: usize, l: usize)
    requires { Table g t.old × (j.0 < g.nob) × (n ≤ g.sio) × (l < 2 ^ g.link) }
    ensures { Stored g t.old t.new (over_overflow j.0 (with_front n l) (decode g t.old)) }
{
    put_front(t, g.overflow, j.0, g.link, n, l);
}

// Overflow block j becomes zero, but for its link, l, and its owner, i, as every block that is taken or freed (clauses 5.3, 5.4;
// the owner of a free block is 0). Side by side, both are one store.
pub fn empty_block(t: &mut [u8], g: Layout, j: BlockNumber, l: usize, i: ListNumber)
    requires { Table g t.old × (j.0 < g.nob) × (l < 2 ^ g.link) × (i.0 < g.lists) }
    ensures { Stored g t.old t.new (over_overflow j.0 (λ o. empty_block g l i.0) (decode g t.old)) }
{
    let b = g.overflow;
    let owner = g.owner as usize;
    let both = join(l as u64, owner, i.0 as u64) as usize;
    clear_and_put(
        t,
        counter_at(b, j.0),
        b.bits,
        link_at(b, j.0),
        g.link + owner,
        both,
    );
}
