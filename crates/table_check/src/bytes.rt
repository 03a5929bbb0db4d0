// Runs of bits that are tested.
ghost use Rattle.std.specs.Prelude.{◌≡◌, ◌+◌, ◌-◌, ◌*◌, ◌^◌, ◌≤◌, length, eqb};
ghost use Rattle.laws.specs.Folds.{every_below};
ghost use Rattle.bits.specs.Field.{field};

// Whether the n bits from bit at on are zero, 64 of them at a time.
pub(crate) fn zeros(t: &[u8], at: usize, n: usize) -> bool
    requires { (at + n ≤ 8 * length t.now) × (at + n ≤ 2 ^ 28) }
    ensures { result ≡ eqb (field t.now at n) 0 }
{
    for k in (0..n).step_by(64) {
        let m = (n - k).min(64);
        if bits::get(t, at + k, m) != 0 {
            return false;
        }
    }
    true
}

// Whether slots c to n - 1 are zero, where slot 0 begins at bit `at` and each has w bits.
pub(crate) fn zeros_after(t: &[u8], at: usize, w: usize, c: usize, n: usize) -> bool
    requires { (c ≤ n) × (at + n * w ≤ 8 * length t.now) × (at + n * w ≤ 2 ^ 28) }
    ensures { result ≡ eqb (field t.now (at + c * w) ((n - c) * w)) 0 }
{
    zeros(t, at + c * w, (n - c) * w)
}

// Whether the first n bits are all ones.
pub(crate) fn all_marked(s: &[u8], n: usize) -> bool
    requires { (n ≤ 8 * length s.now) × (n ≤ 2 ^ 28) }
    ensures { result ≡ every_below n (λ j. eqb (field s.now j 1) 1) }
{
    (0..n).all(|j| bits::get(s, j, 1) == 1)
}
