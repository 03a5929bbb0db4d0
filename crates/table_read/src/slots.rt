// Slots in a row, and what they hold.
ghost use Rattle.std.specs.Prelude.{◌≡◌, ℕ, ◌+◌, ◌-◌, ◌*◌, ◌/◌, ◌%◌, ◌^◌, ◌≤◌, ◌<◌, length, get_or, eqb};
ghost use Rattle.settings.specs.Legal.{most_bits};
ghost use Rattle.bits.specs.Field.{field};
ghost use Rattle.settings.specs.Proper.{Proper};
ghost use Rattle.keys.specs.Key.{key_number, key_of};
ghost use Rattle.table.specs.State.{entry_of, label_of};
ghost use Rattle.table_read.specs.Steps.{restored_bytes, FieldWithin, First, SlotsWithin, slots_in};
ghost use Rattle.table_read.specs.Rows.{Row};

use crate::windows::{FEW, candidate};
use bits::{join, pow};
use keys::{Key, SlotNumber};
use settings::Layout;

// Slots of a block: where the first begins, how many they are, how many of their first bits are displaced,
// and the value that these count as. In a basic block that overflows it stands in the list's last link;
// elsewhere `displaced` is 0.
#[derive(Clone, Copy)]
pub struct Slots {
    pub start: usize,
    pub count: usize,
    pub displaced: usize,
    pub value: u64,
}

// The n bits of x above its k low ones.
fn bits_above(x: u64, k: usize, n: usize) -> u64
    requires { (k < 64) × (n < 64) }
    ensures { result ≡ x / 2 ^ k % 2 ^ n }
{
    (x >> k) % pow(n)
}

// The field of n bits from bit `at` on, where the first bits of the slots are what they count as.
pub fn restored(t: &[u8], b: Slots, at: usize, n: usize) -> u64
    requires { FieldWithin t.now b at n × (n ≤ 64) }
    ensures { result ≡ field (restored_bytes t.now b) at n }
{
    let end = b.start + b.displaced;
    if at >= end {
        return bits::get(t, at, n);
    }
    if at + n <= end {
        return bits_above(b.value, end - at - n, n);
    }
    let k = end - at;
    join(bits_above(b.value, 0, k), n - k, bits::get(t, end, n - k))
}

// Whether the field of n bits from bit `at` on is the entry. Of more than 64 bits the low ones are
// compared first.
fn same_entry(t: &[u8], b: Slots, at: usize, n: usize, entry: Key) -> bool
    requires { FieldWithin t.now b at n × (n ≤ 128) × (key_number entry < 2 ^ n) }
    ensures { result ≡ eqb (field (restored_bytes t.now b) at n) (key_number entry) }
{
    if n <= 64 {
        return restored(t, b, at, n) == entry.low;
    }
    if restored(t, b, at + (n - 64), 64) != entry.low {
        return false;
    }
    restored(t, b, at, n - 64) == entry.high
}

// Whether the n bits from bit `at` on are the number high * 2^64 + low. Of more than 64 bits the low ones are compared
// first. `same_entry` for bits as they stand: one function for both would ask at each slot where the displaced bits end.
fn holds(t: &[u8], at: usize, n: usize, high: u64, low: u64) -> bool
    requires { (at + n ≤ 8 * length t.now) × (at + n ≤ most_bits) × (n ≤ 128) × (high * 2 ^ 64 + low < 2 ^ n) }
    ensures { result ≡ eqb (field t.now at n) (high * 2 ^ 64 + low) }
{
    if n <= 64 {
        return bits::get(t, at, n) == low;
    }
    if bits::get(t, at + (n - 64), 64) != low {
        return false;
    }
    bits::get(t, at, n - 64) == high
}

// The first slot from `from` on that holds the entry, slot by slot; their count if none does, here and in the searches below
// no Option: a miss has compared them all, and find answers how many that were. Here and below the slots, the
// widths and the entry come one by one: in one struct, what a call reads of them would be loads of what was just stored, since
// a function that is not inlined takes a struct in memory.
#[tactic(auto, unfolding(keys::specs::Key::key_number))]
fn scan_from(
    t: &[u8],
    b: Slots,
    from: SlotNumber,
    slot: usize,
    bie: usize,
    entry: Key,
) -> SlotNumber
    requires row { Row t.now b.start slot bie b.count × (key_number entry < 2 ^ bie) }
    requires by_index { (k : ℕ) → k < from.0 → k < b.count → field t.now (b.start + k * slot) bie ≡ key_number entry → ⊥ }
    ensures { First t.now b.start slot bie (key_number entry) b.count result.0 }
{
    for j in from.0..b.count {
        if holds(t, b.start + j * slot, bie, entry.high, entry.low) {
            return SlotNumber(j);
        }
    }
    SlotNumber(b.count)
}

// How many slots are looked at for the first `count`: of a small block all, since a fixed number of turns can be foreseen.
pub fn looked_at(count: usize, room: usize) -> usize
    requires { count ≤ room }
    ensures { (count ≤ result) × (result ≤ room) }
{
    if room <= FEW {
        return room;
    }
    count
}

// The first slot that holds the entry, where none before slot `from` does, and that slot most likely; their count if none
// does.
#[tactic(auto, unfolding(keys::specs::Key::key_number))]
pub fn confirm(
    t: &[u8],
    b: Slots,
    from: SlotNumber,
    slot: usize,
    bie: usize,
    entry: Key,
) -> SlotNumber
    requires row { Row t.now b.start slot bie b.count × (key_number entry < 2 ^ bie) × (from.0 < b.count) }
    requires by_index { (k : ℕ) → k < from.0 → field t.now (b.start + k * slot) bie ≡ key_number entry → ⊥ }
    ensures { First t.now b.start slot bie (key_number entry) b.count result.0 }
{
    if holds(&t[..], b.start + from.0 * slot, bie, entry.high, entry.low) {
        return from;
    }
    scan_from(&t[..], b, SlotNumber(from.0 + 1), slot, bie, entry)
}

// The first of the slots, as they stand, that holds the entry; their count if none does. A window of each slot is looked
// at first. The block has room for `room` slots.
#[tactic(auto, unfolding(keys::specs::Key::key_number))]
pub fn scan(t: &[u8], b: Slots, room: usize, slot: usize, bie: usize, entry: Key) -> SlotNumber
    requires { Row t.now b.start slot bie room × (b.count ≤ room) × (key_number entry < 2 ^ bie) }
    ensures { First t.now b.start slot bie (key_number entry) b.count result.0 }
{
    let n = looked_at(b.count, room);
    let from = SlotNumber(candidate(t, b.start, n, slot, bie, entry.high, entry.low));
    if from.0 >= b.count {
        return SlotNumber(b.count);
    }
    scan_from(t, b, from, slot, bie, entry)
}

// The first of the slots that holds the entry, where their first bits are what they count as.
fn scan_restored(t: &[u8], b: Slots, slot: usize, bie: usize, entry: Key) -> SlotNumber
    requires { Row t.now b.start slot bie b.count × (b.start + b.displaced ≤ 8 * length t.now) × (b.displaced ≤ 16) × (b.value < 2 ^ b.displaced) × (key_number entry < 2 ^ bie) }
    ensures { First (restored_bytes t.now b) b.start slot bie (key_number entry) b.count result.0 }
{
    for j in 0..b.count {
        if same_entry(t, b, b.start + j * slot, bie, entry) {
            return SlotNumber(j);
        }
    }
    SlotNumber(b.count)
}

// Whether slot 0 holds the entry, where its first bits are what they count as. Its last bits, which are not displaced, are
// looked at first.
fn first_holds(t: &[u8], b: Slots, bie: usize, entry: Key) -> bool
    requires { FieldWithin t.now b b.start bie × (bie ≤ 128) × (key_number entry < 2 ^ bie) × (b.displaced < bie) }
    ensures { result ≡ eqb (field (restored_bytes t.now b) b.start bie) (key_number entry) }
{
    let m = (bie - b.displaced).min(57);
    if bits::get_short(t, b.start + (bie - m), m) != entry.low % pow(m) {
        return false;
    }
    same_entry(&t[..], b, b.start, bie, entry)
}

// The same as `scan` of the slots of a basic block that overflows, where their first bits are what they count as. Unless
// those reach past the entry of slot 0, the other slots are read as they stand. The entry comes in two numbers, since this
// is called from two places and stays a function.
#[tactic(auto, unfolding(keys::specs::Key::key_number))]
pub fn scan_displaced(
    t: &[u8],
    b: Slots,
    slot: usize,
    bie: usize,
    high: u64,
    low: u64,
) -> SlotNumber
    requires row { Row t.now b.start slot bie b.count × (0 < b.count) × (high * 2 ^ 64 + low < 2 ^ bie) }
    requires displaced_bound { (b.start + b.displaced ≤ 8 * length t.now) × (b.displaced ≤ 16) × (b.value < 2 ^ b.displaced) }
    ensures { First (restored_bytes t.now b) b.start slot bie (high * 2 ^ 64 + low) b.count result.0 }
{
    let entry = Key { high, low };
    if b.displaced >= bie {
        return scan_restored(&t[..], b, slot, bie, entry);
    }
    if first_holds(t, b, bie, entry) {
        return SlotNumber(0);
    }
    let others = Slots {
        start: b.start + slot,
        count: b.count - 1,
        displaced: 0,
        value: 0,
    };
    let j = scan(&t[..], others, others.count, slot, bie, entry);
    SlotNumber(1 + j.0)
}

// The key of n bits from bit `at` on, as they stand. It is always built in, since a call hands a key back through memory.
#[inline(always)]
pub fn key_at(t: &[u8], at: usize, n: usize) -> Key
    requires { (at + n ≤ 8 * length t.now) × (at + n ≤ most_bits) × (n ≤ 128) }
    ensures { result ≡ key_of (field t.now at n) }
{
    if n <= 64 {
        return Key {
            high: 0,
            low: bits::get(t, at, n),
        };
    }
    Key {
        high: bits::get(t, at, n - 64),
        low: bits::get(t, at + (n - 64), 64),
    }
}

// The entry of n bits from bit `at` on, among the slots. Not by `key_at`: each part may be displaced bits.
pub fn entry_at(t: &[u8], b: Slots, at: usize, n: usize) -> Key
    requires { FieldWithin t.now b at n × (n ≤ 128) }
    ensures { result ≡ key_of (field (restored_bytes t.now b) at n) }
{
    if n <= 64 {
        return Key {
            high: 0,
            low: restored(t, b, at, n),
        };
    }
    Key {
        high: restored(t, b, at, n - 64),
        low: restored(t, b, at + (n - 64), 64),
    }
}

// The label of val bits from bit `at` on, among the slots.
pub fn label_at(t: &[u8], b: Slots, at: usize, val: usize) -> u32
    requires { FieldWithin t.now b at val × (val ≤ 32) }
    ensures { result ≡ field (restored_bytes t.now b) at val }
{
    if at >= b.start + b.displaced {
        return bits::get(t, at, val) as u32;
    }
    restored(&t[..], b, at, val) as u32
}

// The entry in slot j.
pub fn entry_in(t: &[u8], g: Layout, b: Slots, j: SlotNumber) -> Key
    requires { Proper g × SlotsWithin g t.now b × (j.0 < b.count) }
    ensures { result ≡ key_of (entry_of g (get_or (slots_in g t.now b) j.0 0)) }
{
    entry_at(t, b, b.start + j.0 * g.slot, g.bie)
}

// The label in slot j.
pub fn label_in(t: &[u8], g: Layout, b: Slots, j: SlotNumber) -> u32
    requires { Proper g × SlotsWithin g t.now b × (j.0 < b.count) }
    ensures { result ≡ label_of g (get_or (slots_in g t.now b) j.0 0) }
{
    restored(t, b, b.start + j.0 * g.slot + g.bie, g.val) as u32
}
