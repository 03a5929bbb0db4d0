// The layout of the table's bits, computed once a call from the settings.
ghost use Rattle.std.specs.Prelude.{◌≡◌, ◌+◌, ◌*◌, ◌≤◌};
ghost use Rattle.settings.specs.Sizes.{slot_bits, link_bits, overflow_start};
ghost use Rattle.settings.specs.Legal.{Ranges};
ghost use Rattle.settings.specs.Layout.{basic_blocks, overflow_blocks, layout_of};

use crate::log::ceil_log2;
use crate::settings::{Settings, lists_of};

// Blocks of one kind, one after the other: where block 0 begins, and the bits of a counter and of a
// whole block.
#[derive(Clone, Copy)]
pub struct Blocks {
    pub start: usize,
    pub counter: usize,
    pub bits: usize,
}

// The widths of the fields, the numbers of slots and blocks, and the size of it all. The free start
// is the bits before the basic blocks; the owner of an overflow block is the list that it belongs to.
// Two numbers have 32 bits, so that the whole has 128 bytes: what is larger is copied by a call of memcpy.
#[derive(Clone, Copy)]
pub struct Layout {
    pub bie: usize,
    pub val: usize,
    pub slot: usize,
    pub sib: usize,
    pub nob: usize,
    pub sio: usize,
    pub lists: u32,
    pub owner: u32,
    pub link: usize,
    pub basic: Blocks,
    pub overflow: Blocks,
    pub bits: usize,
    pub bytes: usize,
}

// By `as`: no From makes a usize of it.
fn wide(x: u32) -> usize
    ensures { result ≡ x }
{
    x as usize
}

// A block's bits: its counter (and the fields behind it), and its slots. Products stand in functions of their own,
// with their bounds, so that all above them is linear.
fn block_bits(head: usize, slots: usize, slot: usize) -> usize
    requires { (head ≤ 36) × (slots ≤ 255) × (slot ≤ 160) }
    ensures { (result ≡ head + slots * slot) × (result ≤ 40836) }
{
    head + slots * slot
}

fn blocks_bits(blocks: usize, block: usize) -> usize
    requires { (blocks ≤ 65536) × (block ≤ 40836) }
    ensures { (result ≡ blocks * block) × (result ≤ 2676228096) }
{
    blocks * block
}

impl Blocks {
    // The basic blocks, behind the free start.
    fn basic(s: Settings, slot: usize) -> Blocks
        requires { Ranges s × (slot ≡ slot_bits s) }
        ensures { (result ≡ basic_blocks s) × (result.start ≤ 16) × (result.bits ≤ 40836) }
    {
        let counter = ceil_log2(2 + s.sib);
        Blocks {
            start: ceil_log2(1 + s.nob),
            counter,
            bits: block_bits(counter, wide(s.sib), slot),
        }
    }

    // The overflow blocks, behind the basic ones, with a link and the owner's number behind the counter.
    fn overflow(s: Settings, slot: usize, numbers: usize, start: usize) -> Blocks
        requires { Ranges s × (slot ≡ slot_bits s) × (numbers ≡ link_bits s + s.bii) × (start ≡ overflow_start s) }
        ensures { (result ≡ overflow_blocks s) × (result.bits ≤ 40836) }
    {
        let counter = ceil_log2(1 + s.sio);
        Blocks {
            start,
            counter,
            bits: block_bits(counter + numbers, wide(s.sio), slot),
        }
    }
}

impl Layout {
    // The layout for settings in their ranges.
    pub(crate) fn of(s: Settings) -> Layout
        requires { Ranges s }
        ensures { result ≡ layout_of s }
    {
        let bie = wide(s.w - s.bii);
        let val = wide(s.val);
        let slot = bie + val;
        let nob = wide(s.nob);
        let lists = lists_of(s.bii).0;
        let link = ceil_log2(s.nob);
        let basic = Blocks::basic(s, slot);
        let behind = basic.start + blocks_bits(lists, basic.bits);
        let overflow = Blocks::overflow(s, slot, link + wide(s.bii), behind);
        let bits = overflow.start + blocks_bits(nob, overflow.bits);
        Layout {
            bie,
            val,
            slot,
            sib: wide(s.sib),
            nob,
            sio: wide(s.sio),
            lists: lists as u32,
            owner: s.bii,
            link,
            basic,
            overflow,
            bits,
            bytes: (bits + 7) / 8,
        }
    }
}
