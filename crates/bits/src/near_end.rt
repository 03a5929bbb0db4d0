// Fields that start in the last seven bytes: byte by byte.
ghost use Rattle.std.specs.Prelude.{◌≡◌, ◌^◌, ◌<◌};
ghost use Rattle.bits.specs.Field.{field};
ghost use Rattle.bits.specs.Put.{put_field};
ghost use Rattle.bits.specs.Within.{Within};

use crate::byte;
use crate::number::{join, pow};

// The field of n bits from bit off on: all but the bits in its last byte, followed by these. It calls
// itself rather than loop because LLVM inlines no function that does: what only the last bytes need
// stays out of the code of every caller. It takes off the last byte, not the first, so that no place
// past off is computed, which need not fit a usize. e is the place of the last bit from byte i on.
pub fn get(s: &[u8], off: usize, n: usize) -> u64
    requires within { Within s.now off n }
    requires n_nonzero { 0 < n }
    ensures { result ≡ field s.now off n }
{
    let i = off / 8;
    let e = off % 8 + n - 1;
    if e < 8 {
        return byte::get(s, i, off % 8, n);
    }
    let t = e % 8 + 1;
    join(get(&s[..], off, n - t), t, byte::get(s, i + e / 8, 0, t))
}

// That field becomes v. It calls itself for the same reason.
pub fn put(s: &mut [u8], off: usize, n: usize, v: u64)
    requires within { Within s.old off n }
    requires n_nonzero { (0 < n) × (v < 2 ^ n) }
    ensures { s.new ≡ put_field s.old off n v }
{
    let i = off / 8;
    let e = off % 8 + n - 1;
    if e < 8 {
        byte::put(s, i, off % 8, n, v);
        return;
    }
    let t = e % 8 + 1;
    put(s, off, n - t, v >> t);
    byte::put(s, i + e / 8, 0, t, v % pow(t));
}
