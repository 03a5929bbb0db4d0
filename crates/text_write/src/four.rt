// Four bytes stored at once.
ghost use Rattle.std.specs.Prelude.{◌+◌, ◌≤◌, ◌++◌, length, take};
ghost use Rattle.text_write.specs.WriterSteps.{Puts, unpacked};

// The four bytes of a number, the lowest first.
pub(crate) fn put_four(text: &mut [u8], at: usize, x: u64)
    requires { at + 4 ≤ length text.old }
    ensures { Puts (take at text.old ++ unpacked x) (at + 4) text.old text.new (at + 4) }
{
    bits::store_four(text, at, x);
}
