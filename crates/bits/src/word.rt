// Words of eight bytes, the first byte highest, and bytes compared as they stand, the first one lowest. The library's
// conversions and copies are one load or one store each, and a byte swap.
ghost use Rattle.std.specs.Prelude.{◌≡◌, ◌+◌, ◌*◌, ◌%◌, ◌^◌, ◌≤◌, ◌<◌, length};
ghost use Rattle.bits.specs.Field.{field};
ghost use Rattle.bits.specs.Put.{put_field};
ghost use Rattle.bits.specs.Word.{low_first, low_first_four, swapped, set_four};

use crate::number::{part, replace};

// The eight bytes from i on, the first one lowest.
pub(crate) fn low_first(s: &[u8], i: usize) -> u64
    requires { i + 8 ≤ length s.now }
    ensures { result ≡ low_first s.now i }
{
    u64::from_le_bytes([
        s[i],
        s[i + 1],
        s[i + 2],
        s[i + 3],
        s[i + 4],
        s[i + 5],
        s[i + 6],
        s[i + 7],
    ])
}

// The four bytes from i on, the first one lowest.
pub(crate) fn low_first_four(s: &[u8], i: usize) -> u64
    requires { i + 4 ≤ length s.now }
    ensures { result ≡ low_first_four s.now i }
{
    u64::from(u32::from_le_bytes([s[i], s[i + 1], s[i + 2], s[i + 3]]))
}

// x, with its eight bytes in the other order.
pub fn swap_bytes(x: u64) -> u64
    ensures { result ≡ swapped x }
{
    x.swap_bytes()
}

// The eight bytes from i on, the first one highest.
fn load(s: &[u8], i: usize) -> u64
    requires { i + 8 ≤ length s.now }
    ensures { result ≡ field s.now (8 * i) 64 }
{
    swap_bytes(low_first(s, i))
}

// The four bytes from i on become the four low bytes of x, the lowest first.
pub fn store_four(s: &mut [u8], i: usize, x: u64)
    requires { i + 4 ≤ length s.old }
    ensures { s.new ≡ set_four s.old i x }
{
    s[i..i + 4].copy_from_slice(&x.to_le_bytes()[..4]);
}

// The eight bytes from i on become w, the first one highest.
fn store(s: &mut [u8], i: usize, w: u64)
    requires { i + 8 ≤ length s.old }
    ensures { s.new ≡ put_field s.old (8 * i) 64 w }
{
    s[i..i + 8].copy_from_slice(&w.to_be_bytes());
}

// The n bits after the first a of the eight bytes from i on.
pub fn get(s: &[u8], i: usize, a: usize, n: usize) -> u64
    requires { (i + 8 ≤ length s.now) × (0 < n) × (a + n ≤ 64) }
    ensures { result ≡ field s.now (8 * i + a) n }
{
    part(load(s, i), 64 - a - n, n)
}

// Those bits become v.
pub fn put(s: &mut [u8], i: usize, a: usize, n: usize, v: u64)
    requires { (i + 8 ≤ length s.old) × (0 < n) × (a + n ≤ 64) × (v < 2 ^ n) }
    ensures { s.new ≡ put_field s.old (8 * i + a) n v }
{
    let w = replace(load(s, i), 64 - a - n, n, v);
    store(s, i, w);
}
