// Bits that become zero.
ghost use Rattle.std.specs.Prelude.{◌≡◌, ◌+◌, ◌-◌, ◌*◌, ◌^◌, ◌≤◌, ◌<◌, length};
ghost use Rattle.settings.specs.Legal.{most_bits};
ghost use Rattle.bits.specs.Put.{put_field, replaced};
ghost use Rattle.bits.specs.Within.{Within};

use bits::{pow, zero_bytes};

// b with its last 8 - k bits zero. It and `last_bits` are no twins: one keeps a quotient, the other a remainder.
fn first_bits(b: u8, k: usize) -> u8
    requires { k ≤ 8 }
    ensures { result ≡ replaced b 0 (8 - k) 0 }
{
    let q = pow(8 - k);
    (u64::from(b) / q * q) as u8
}

// b with its first k bits zero.
fn last_bits(b: u8, k: usize) -> u8
    requires { k ≤ 8 }
    ensures { result ≡ replaced b (8 - k) k 0 }
{
    (u64::from(b) % pow(8 - k)) as u8
}

// The n bits from bit off on become zero: the last bits of a byte, whole bytes, the first bits of a byte.
pub fn clear(t: &mut [u8], off: usize, n: usize)
    requires { (off + n ≤ 8 * length t.old) × (off + n ≤ most_bits) }
    ensures { t.new ≡ put_field t.old off n 0 }
{
    if n < 16 {
        bits::put(t, off, n, 0);
        return;
    }
    let i = off / 8;
    let e = (off + n) / 8;
    let k = (off + n) % 8;
    t[i] = first_bits(t[i], off % 8);
    let from = i + 1;
    zero_bytes(&mut t[from..e]);
    if k > 0 {
        t[e] = last_bits(t[e], k);
    }
}

// The n bits from bit `off` on become zero, and then the k bits from bit `at` on v: a block is emptied but for its link and its
// owner, a slot goes and the counter says so. It is told plain numbers: a layout that is handed on would have to be copied whole.
pub fn clear_and_put(t: &mut [u8], off: usize, n: usize, at: usize, k: usize, v: usize)
    requires { (off + n ≤ 8 * length t.old) × (off + n ≤ most_bits) × Within t.old at k × (v < 2 ^ k) }
    ensures { t.new ≡ put_field (put_field t.old off n 0) at k v }
{
    clear(t, off, n);
    bits::put(t, at, k, v as u64);
}
