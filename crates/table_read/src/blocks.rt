// What the first fields of blocks say: the free start, counters, links and owners.
ghost use Rattle.std.specs.Prelude.{◌≡◌, ◌+◌, ◌*◌, ◌≤◌, ◌<◌, length};
ghost use Rattle.table.specs.Follow.{step_of};
ghost use Rattle.bits.specs.Field.{field};
ghost use Rattle.table.specs.State.{basic_at, overflow_at};
ghost use Rattle.table.specs.Decode.{block_at, decode};
ghost use Rattle.table.specs.Table.{Table};
ghost use Rattle.table_read.specs.Places.{BlockIn};

use crate::places::{counter_at, link_at};
use bits::pow;
use keys::{BlockNumber, FreeStart, ListNumber};
use settings::{Blocks, Layout};
use table::Step;

// The first bits of a block: its counter, and the L bits behind it. Those are a block's number if the list goes on there;
// elsewhere they are bits of slots.
#[derive(Clone, Copy)]
pub struct Front {
    pub counter: usize,
    pub link: usize,
}

// The first fields of an overflow block: its front, and the list that it belongs to.
#[derive(Clone, Copy)]
pub struct Owned {
    pub front: Front,
    pub owner: ListNumber,
}

// What a basic and an overflow block have alike is one function over `Blocks` (`front_of`, `counter_of`, `link_of`). The pairs
// above these are a line each: a trait over the two numbers would need ghost members for the limit, the blocks and each field,
// and a law for each, and be longer. The same of the pairs in places.rt and numbers.rt.

// The first bits of block i, in one load.
fn front_of(t: &[u8], b: Blocks, i: usize, link: usize) -> Front
    requires { BlockIn t.now b i link }
    ensures { (result.counter ≡ field t.now (block_at b i) b.counter) × (result.link ≡ field t.now (block_at b i + b.counter) link) }
{
    let both = bits::get_short(t, counter_at(b, i), b.counter + link);
    let all = pow(link);
    Front {
        counter: (both / all) as usize,
        link: (both % all) as usize,
    }
}

pub fn basic_front(t: &[u8], g: Layout, i: ListNumber) -> Front
    requires { Table g t.now × (i.0 < g.lists) }
    ensures { (result.counter ≡ (basic_at (decode g t.now).basic i.0).counter) × (result.link ≡ (basic_at (decode g t.now).basic i.0).head) }
{
    front_of(t, g.basic, i.0, g.link)
}

pub fn overflow_front(t: &[u8], g: Layout, j: BlockNumber) -> Front
    requires { Table g t.now × (j.0 < g.nob) }
    ensures { (result.counter ≡ (overflow_at (decode g t.now).overflow j.0).counter) × (result.link ≡ (overflow_at (decode g t.now).overflow j.0).link) }
{
    front_of(t, g.overflow, j.0, g.link)
}

// The counter, the link and the owner of overflow block j, in one load.
pub fn owned_front(t: &[u8], g: Layout, j: BlockNumber) -> Owned
    requires { Table g t.now × (j.0 < g.nob) }
    ensures { (result.front.counter ≡ (overflow_at (decode g t.now).overflow j.0).counter) × (result.front.link ≡ (overflow_at (decode g t.now).overflow j.0).link) × (result.owner.0 ≡ (overflow_at (decode g t.now).overflow j.0).owner) }
{
    let width = g.owner as usize;
    let owner = pow(width);
    let link = pow(g.link);
    let all = bits::get_short(
        t,
        counter_at(g.overflow, j.0),
        g.overflow.counter + (g.link + width),
    );
    let both = all / owner;
    Owned {
        front: Front {
            counter: (both / link) as usize,
            link: (both % link) as usize,
        },
        owner: ListNumber((all % owner) as usize),
    }
}

// A field of at most 57 bits, and perhaps of none, as an index.
fn short_field(t: &[u8], at: usize, n: usize) -> usize
    requires { (at + n ≤ 8 * length t.now) × (n ≤ 57) }
    ensures { result ≡ field t.now at n }
{
    if n == 0 {
        return 0;
    }
    bits::get_short(t, at, n) as usize
}

pub fn free_start(t: &[u8], g: Layout) -> FreeStart
    requires { Table g t.now }
    ensures { result.0 ≡ (decode g t.now).free }
{
    FreeStart(short_field(t, 0, g.basic.start))
}

// The counter of block i.
fn counter_of(t: &[u8], b: Blocks, i: usize) -> usize
    requires { BlockIn t.now b i 0 }
    ensures { result ≡ field t.now (block_at b i) b.counter }
{
    bits::get_short(t, counter_at(b, i), b.counter) as usize
}

pub fn basic_counter(t: &[u8], g: Layout, i: ListNumber) -> usize
    requires { Table g t.now × (i.0 < g.lists) }
    ensures { result ≡ (basic_at (decode g t.now).basic i.0).counter }
{
    counter_of(t, g.basic, i.0)
}

pub fn overflow_counter(t: &[u8], g: Layout, j: BlockNumber) -> usize
    requires { Table g t.now × (j.0 < g.nob) }
    ensures { result ≡ (overflow_at (decode g t.now).overflow j.0).counter }
{
    counter_of(t, g.overflow, j.0)
}

// The `link` bits behind the counter of block i.
fn link_of(t: &[u8], b: Blocks, i: usize, link: usize) -> usize
    requires { BlockIn t.now b i link }
    ensures { result ≡ field t.now (block_at b i + b.counter) link }
{
    short_field(t, link_at(b, i), link)
}

// The first L bits of the slots of basic block i.
pub fn basic_head(t: &[u8], g: Layout, i: ListNumber) -> usize
    requires { Table g t.now × (i.0 < g.lists) }
    ensures { result ≡ (basic_at (decode g t.now).basic i.0).head }
{
    link_of(t, g.basic, i.0, g.link)
}

// The L bits of the link: the number of the block that follows, or in the last block of a list the displaced bits.
pub fn overflow_link(t: &[u8], g: Layout, j: BlockNumber) -> usize
    requires { Table g t.now × (j.0 < g.nob) }
    ensures { result ≡ (overflow_at (decode g t.now).overflow j.0).link }
{
    link_of(t, g.overflow, j.0, g.link)
}

// The step of a block with these first bits. Every loop along a list takes it, and has it inlined.
pub fn step_of(front: Front, sio: usize) -> Step
    ensures { result ≡ step_of sio front.counter front.link }
{
    if front.counter < sio {
        return Step::Last;
    }
    if front.counter > sio {
        return Step::Damage;
    }
    Step::Further(BlockNumber(front.link))
}
