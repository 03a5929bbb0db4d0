// ⌈log2 n⌉, the bits that hold every number below n: the width of links, counters and the free start.
ghost use Rattle.std.specs.Prelude.{◌≡◌};
ghost use Rattle.settings.specs.Log.{ceil_log2};

// The bits of the number less one, but for its leading zero bits; 0 for 1, and for 0. A bit 1 is put behind it: then
// there is always one to find, and 63 less the count is the place of the first one, which x86-64 tells at once.
pub(crate) fn ceil_log2(n: u32) -> usize
    ensures { result ≡ ceil_log2 n }
{
    if n == 0 {
        return 0;
    }
    let less = n as usize - 1;
    63 - usize::leading_zeros(2 * less + 1) as usize
}
