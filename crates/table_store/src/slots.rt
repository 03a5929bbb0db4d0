// A slot, which may stand under displaced bits.
ghost use Rattle.std.specs.Prelude.{◌≡◌, ◌+◌, ◌-◌, ◌*◌, ◌/◌, ◌%◌, ◌^◌, ◌≤◌, ◌<◌, length};
ghost use Rattle.settings.specs.Legal.{most_bits};
ghost use Rattle.bits.specs.Field.{field};
ghost use Rattle.bits.specs.Put.{put_field};
ghost use Rattle.keys.specs.Key.{key_number};
ghost use Rattle.table_store.specs.Stores.{StoredOver};

use table::Slot;
use table_read::slots::{Slots, key_at};

// The slot at bit `at`, as it stands: its entry, of bie bits, and its label, of val bits.
pub fn get_slot(t: &[u8], at: usize, bie: usize, val: usize) -> Slot
    requires { (at + (bie + val) ≤ 8 * length t.now) × (at + (bie + val) ≤ most_bits) × (bie ≤ 128) × (val ≤ 32) }
    ensures { (key_number result.entry ≡ field t.now at bie) × (result.label ≡ field t.now (at + bie) val) }
{
    let label = bits::get(t, at + bie, val) as u32;
    Slot {
        entry: key_at(t, at, bie),
        label,
    }
}

// A slot's bits above its low 64: high, and the bits of low that val label bits push out.
fn above(high: u64, low: u64, val: usize) -> u64
    requires { (val ≤ 32) × (high < 2 ^ (64 - val)) }
    ensures { result ≡ high * 2 ^ val + low / 2 ^ (64 - val) }
{
    if val == 0 {
        return high;
    }
    (high << val) + (low >> (64 - val))
}

// A slot's low 64 bits: what is left of low, and the label.
fn below(low: u64, val: usize, label: u32) -> u64
    requires { (val ≤ 32) × (label < 2 ^ val) }
    ensures { result ≡ low * 2 ^ val % 2 ^ 64 + label }
{
    (low << val) + u64::from(label)
}

// A slot at bit `at`: its entry, of bie bits, and its label, of val bits. A slot of up to 128 bits is one store. It takes
// plain numbers: a `Slot` would have to lie in memory, whole, since this is called from several places and stays a function; so
// would a struct of bie and val, which are no layout's where a label is stored alone.
pub fn put_slot(t: &mut [u8], at: usize, bie: usize, val: usize, high: u64, low: u64, label: u32)
    requires { (at + (bie + val) ≤ 8 * length t.old) × (at + (bie + val) ≤ most_bits) × (bie ≤ 128) × (val ≤ 32) × (high * 2 ^ 64 + low < 2 ^ bie) × (label < 2 ^ val) }
    ensures { t.new ≡ put_field t.old at (bie + val) ((high * 2 ^ 64 + low) * 2 ^ val + label) }
{
    let n = bie + val;
    if n <= 128 {
        bits::put_wide(
            &mut t[..],
            at,
            n,
            above(high, low, val),
            below(low, val, label),
        );
        return;
    }
    bits::put_wide(&mut t[..], at + bie, val, 0, u64::from(label));
    bits::put_wide(&mut t[..], at, bie, high, low);
}

// The n bits from bit `from` on stand from bit `to` on too. All are read before any is written.
pub fn copy(t: &mut [u8], from: usize, to: usize, n: usize)
    requires { (1 ≤ n) × (n ≤ 160) × (from + n ≤ 8 * length t.old) × (from + n ≤ most_bits) × (to + n ≤ 8 * length t.old) × (to + n ≤ most_bits) }
    ensures { t.new ≡ put_field t.old to n (field t.old from n) }
{
    if n <= 64 {
        let x = bits::get(t, from, n);
        bits::put_wide(&mut t[..], to, n, 0, x);
        return;
    }
    if n <= 128 {
        let high = bits::get(t, from, n - 64);
        let low = bits::get(t, from + (n - 64), 64);
        bits::put_wide(&mut t[..], to, n, high, low);
        return;
    }
    let high = bits::get(t, from, 64);
    let low = bits::get(t, from + 64, 64);
    let rest = bits::get(t, from + 128, n - 128);
    bits::put_wide(&mut t[..], to + 128, n - 128, 0, rest);
    bits::put_wide(&mut t[..], to, 128, high, low);
}

// The slot v at bit `at`, where the displaced bits of the slots b count as their value and themselves stay. The answer is
// what they would be then: they are put back, the slot is stored, they are read again, and what stood there returns. A
// label alone is a slot without an entry: bie is 0, and `at` is where it begins.
pub fn store_over_displaced(
    t: &mut [u8],
    b: Slots,
    at: usize,
    bie: usize,
    val: usize,
    v: Slot,
) -> usize
    requires val_bound { (at + (bie + val) ≤ 8 * length t.old) × (at + (bie + val) ≤ most_bits) × (bie ≤ 128) × (val ≤ 32) × (key_number v.entry < 2 ^ bie) × (v.label < 2 ^ val) }
    requires displaced_bound { (b.start + b.displaced ≤ 8 * length t.old) × (b.displaced ≤ 16) × (b.value < 2 ^ b.displaced) }
    ensures { StoredOver b.displaced (bie + val) t.old t.new b.start b.value at (key_number v.entry * 2 ^ val + v.label) result }
{
    let entry = v.entry;
    let old = bits::get(t, b.start, b.displaced);
    bits::put(t, b.start, b.displaced, b.value);
    put_slot(t, at, bie, val, entry.high, entry.low, v.label);
    let new = bits::get(t, b.start, b.displaced);
    bits::put(t, b.start, b.displaced, old);
    new as usize
}
