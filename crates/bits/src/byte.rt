// Some bits of one byte: where a field ends in the byte after its word, or starts near the end.
ghost use Rattle.std.specs.Prelude.{◌≡◌, ◌+◌, ◌*◌, ◌^◌, ◌≤◌, ◌<◌, length};
ghost use Rattle.bits.specs.Field.{field};
ghost use Rattle.bits.specs.Put.{put_field};

use crate::number::{part, replace};

// The n bits after the first a of byte i. These two are as those of a word but for the load and the store: the rest is
// `part` and `replace`, which both call.
pub fn get(s: &[u8], i: usize, a: usize, n: usize) -> u64
    requires { (i < length s.now) × (0 < n) × (a + n ≤ 8) }
    ensures { result ≡ field s.now (8 * i + a) n }
{
    part(u64::from(s[i]), 8 - a - n, n)
}

// Those bits become v.
pub fn put(s: &mut [u8], i: usize, a: usize, n: usize, v: u64)
    requires { (i < length s.old) × (0 < n) × (a + n ≤ 8) × (v < 2 ^ n) }
    ensures { s.new ≡ put_field s.old (8 * i + a) n v }
{
    s[i] = replace(u64::from(s[i]), 8 - a - n, n, v) as u8;
}
