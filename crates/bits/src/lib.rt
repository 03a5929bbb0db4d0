// Fields in lent bytes (clause 4.1). A field is 0 to 64 bits wide and starts at any bit. Its place and its width are numbers of
// a layout, with their bounds in each contract: a type for each width would be made at each call and taken apart at once. `get`, `get_short` and `get_inner`, and `put` and `put_short`, are no one
// function with a parameter for which tests to make: their names and what they require say which are needed.
#![tactic(auto)]

mod byte;
mod near_end;
mod number;
mod word;

ghost use Rattle.std.specs.Prelude.{◌≡◌, ◌+◌, ◌*◌, ◌/◌, ◌^◌, ◌≤◌, ◌<◌, eqb, length, replicate};
ghost use Rattle.bits.specs.Field.{field};
ghost use Rattle.bits.specs.Put.{put_field};
ghost use Rattle.bits.specs.Within.{Within};
ghost use Rattle.bits.specs.Word.{swapped};

pub use number::{join, part_of_two, pow};
pub use word::{store_four, swap_bytes};

// The field of n bits from bit off on: one load of eight bytes, and a ninth byte where it goes on.
pub fn get(s: &[u8], off: usize, n: usize) -> u64
    requires { Within s.now off n }
    ensures { result ≡ field s.now off n }
{
    if n == 0 {
        return 0;
    }
    let i = off / 8;
    if s.len() < i + 8 {
        return near_end::get(&s[..], off, n);
    }
    let a = off % 8;
    if a + n <= 64 {
        return word::get(s, i, a, n);
    }
    let t = a + n - 64;
    number::join(word::get(s, i, a, 64 - a), t, byte::get(s, i + 8, 0, t))
}

// The same of 1 to 57 bits, where eight bytes are there from the field's first byte on: always one
// load, with no test, for loops.
pub fn get_inner(s: &[u8], off: usize, n: usize) -> u64
    requires { (0 < n) × (n ≤ 57) × (off / 8 + 8 ≤ length s.now) }
    ensures { result ≡ field s.now off n }
{
    word::get(s, off / 8, off % 8, n)
}

// The field of n bits from bit off on becomes v, and no other bit changes.
pub fn put(s: &mut [u8], off: usize, n: usize, v: u64)
    requires within { Within s.old off n }
    requires v_bound { v < 2 ^ n }
    ensures { s.new ≡ put_field s.old off n v }
{
    if n == 0 {
        return;
    }
    let i = off / 8;
    if s.len() < i + 8 {
        near_end::put(&mut s[..], off, n, v);
        return;
    }
    let a = off % 8;
    if a + n <= 64 {
        word::put(s, i, a, n, v);
        return;
    }
    let t = a + n - 64;
    word::put(s, i, a, 64 - a, v >> t);
    byte::put(s, i + 8, 0, t, v % number::pow(t));
}

// The field of n bits from bit off on, where n is 1 to 57: one load has them all.
pub fn get_short(s: &[u8], off: usize, n: usize) -> u64
    requires { (0 < n) × (n ≤ 57) × (off + n ≤ 8 * length s.now) }
    ensures { result ≡ field s.now off n }
{
    if s.len() < off / 8 + 8 {
        return near_end::get(&s[..], off, n);
    }
    get_inner(s, off, n)
}

// The field of n bits from bit off on becomes v, where n is 1 to 57.
pub fn put_short(s: &mut [u8], off: usize, n: usize, v: u64)
    requires { (0 < n) × (n ≤ 57) × (off + n ≤ 8 * length s.old) × (v < 2 ^ n) }
    ensures { s.new ≡ put_field s.old off n v }
{
    let i = off / 8;
    if s.len() < i + 8 {
        near_end::put(&mut s[..], off, n, v);
        return;
    }
    word::put(s, i, off % 8, n, v);
}

// The field of n bits from bit off on, where n is up to 128, becomes high * 2^64 + low. Above 64 bits the
// first word is filled, and the rest follows from its end on. Two numbers, and no struct of them: a function copies its
// structs at its entry.
pub fn put_wide(s: &mut [u8], off: usize, n: usize, high: u64, low: u64)
    requires { (n ≤ 128) × (off + n ≤ 8 * length s.old) × (off + n ≤ 2 ^ 28) × (high * 2 ^ 64 + low < 2 ^ n) }
    ensures { s.new ≡ put_field s.old off n (high * 2 ^ 64 + low) }
{
    if n <= 64 {
        put(s, off, n, low);
        return;
    }
    let i = off / 8;
    let a = off % 8;
    let r = n + a - 64;
    word::put(s, i, a, 64 - a, number::part_of_two(high, low, r));
    if r <= 64 {
        put(s, 8 * i + 64, r, number::part(low, 0, r));
        return;
    }
    let b = r - 64;
    word::put(s, i + 8, 0, 64, number::across(high, low, b));
    byte::put(s, i + 16, 0, b, low % number::pow(b));
}

// Whether the eight bytes from byte i on are the number whose bytes q has in the other order: so none is swapped round.
pub fn word_is(s: &[u8], i: usize, q: u64) -> bool
    requires { i + 8 ≤ length s.now }
    ensures { result ≡ eqb (field s.now (8 * i) 64) (swapped q) }
{
    word::low_first(s, i) == q
}

// The same of four bytes. Apart, since the library has a conversion for each size: one function for both would add up the
// bytes by hand.
pub fn four_is(s: &[u8], i: usize, q: u64) -> bool
    requires { (i + 4 ≤ length s.now) × (q < 2 ^ 32) }
    ensures { result ≡ eqb (field s.now (8 * i) 32) (swapped (q * 2 ^ 32)) }
{
    word::low_first_four(s, i) == q
}

// Every byte becomes zero. A `for` is one `memset`; `fill` stores the last byte apart, in twice the instructions.
pub fn zero_bytes(s: &mut [u8])
    ensures { s.new ≡ replicate (length s.old) 0 }
{
    for b in s {
        *b = 0;
    }
}
