// Some bits of a number. Products, quotients and remainders by a power of two become shifts and
// masks in machine code.
ghost use Rattle.std.specs.Prelude.{◌≡◌, ◌+◌, ◌*◌, ◌/◌, ◌%◌, ◌^◌, ◌≤◌, ◌<◌};
ghost use Rattle.bits.specs.Put.{replaced};

// 2 to the k.
pub fn pow(k: usize) -> u64
    requires { k < 64 }
    ensures { result ≡ 2 ^ k }
{
    1 << k
}

// The m bits of x above its k low ones.
pub(crate) fn part(x: u64, k: usize, m: usize) -> u64
    requires { (0 < m) × (k + m ≤ 64) }
    ensures { result ≡ x / 2 ^ k % 2 ^ m }
{
    (x << (64 - k - m)) >> (64 - m)
}

// x, with the m bits above its k low ones replaced by v. The old bits are taken off and the new ones
// put on, so that it needs no mask.
pub(crate) fn replace(x: u64, k: usize, m: usize, v: u64) -> u64
    requires { (0 < m) × (k + m ≤ 64) × (v < 2 ^ m) }
    ensures { result ≡ replaced x k m v }
{
    let q = pow(k);
    x - part(x, k, m) * q + v * q
}

// x, followed by the t bits of y.
pub fn join(x: u64, t: usize, y: u64) -> u64
    requires { (t < 64) × (x * 2 ^ t + y < 2 ^ 64) }
    ensures { result ≡ x * 2 ^ t + y }
{
    x * pow(t) + y
}

// The 64 bits of high * 2^64 + low above its k low ones, which are some of low: for who knows that, without the tests of
// `part_of_two`.
pub(crate) fn across(high: u64, low: u64, k: usize) -> u64
    requires { (0 < k) × (k < 64) }
    ensures { result ≡ (high * 2 ^ 64 + low) / 2 ^ k % 2 ^ 64 }
{
    (high << (64 - k)) + (low >> k)
}

// The same, where the k low ones may be none, or more than low has.
pub fn part_of_two(high: u64, low: u64, k: usize) -> u64
    requires { k < 128 }
    ensures { result ≡ (high * 2 ^ 64 + low) / 2 ^ k % 2 ^ 64 }
{
    if k == 0 {
        return low;
    }
    if k < 64 {
        return across(high, low, k);
    }
    high >> (k - 64)
}
