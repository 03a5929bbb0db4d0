// The text of an address under ::ffff:0:0/96, which ends in four decimals. It is put where it stays, from its end to its
// start, and every store lies within it: of each decimal three digits are stored, and what comes to the left of it is
// stored over its leading zeros.
ghost use Rattle.std.specs.Prelude.{◌+◌, ◌/◌, ◌%◌, ◌^◌, ◌<◌, ◌≤◌, [], ◌∷◌, ◌++◌, ◌≡◌, length};
ghost use Rattle.text_write.specs.Ascii.{ascii};
ghost use Rattle.text_write.specs.Decimal.{decimal_text};
ghost use Rattle.text_write.specs.Writing.{is_mapped, mapped_text};
ghost use Rattle.text_write.specs.WriterSteps.{Puts, PutsBack, EndsOf, packed};

use crate::four::put_four;
use keys::Key;

// The address is under ::ffff:0:0/96. 4294967296 is 2^32.
pub(crate) fn is_mapped(key: Key) -> bool
    ensures { result ≡ is_mapped key.high key.low }
{
    if key.high != 0 {
        return false;
    }
    key.low / 4294967296 == 0xffff
}

// The last four bytes of an address, as one number.
fn last_four(low: u64) -> u32
    ensures { result ≡ low % 2 ^ 32 }
{
    (low % 4294967296) as u32
}

// Where the four decimals of a text end.
#[derive(Clone, Copy)]
pub(crate) struct Ends {
    first: usize,
    second: usize,
    third: usize,
    pub(crate) last: usize,
}

// Where a decimal ends that stands behind the byte at `at` (here and below a byte is a u32, in which its digits are computed): one digit, one more from 10 on, and one more from 100 on.
// The sum has no jump: one on the number of digits is badly predicted.
fn decimal_end(at: usize, byte: u32) -> usize
    requires { (at < 20) × (byte < 256) }
    ensures { result ≡ at + 1 + length (decimal_text byte) }
{
    at + 2 + usize::from(9 < byte) + usize::from(99 < byte)
}

// The places, one from the other, and only once: so each is there when its decimal is put.
pub(crate) fn decimal_ends(low: u64) -> Ends
    ensures { EndsOf low result }
{
    let x = last_four(low);
    let first = decimal_end(6, x / 16777216);
    let second = decimal_end(first, x / 65536 % 256);
    let third = decimal_end(second, x / 256 % 256);
    let last = decimal_end(third, x % 256);
    Ends {
        first,
        second,
        third,
        last,
    }
}

// Three decimal digits of a byte and a dot, as the bytes of a number, the first lowest. The last digit stands at 65536: ten
// less there, 655360, is one more before it, 256; ten less of these is one more at the first.
fn digits_and_dot(byte: u32) -> u64
    requires { byte < 256 }
    ensures { result ≡ packed (48 + byte / 100) (48 + byte / 10 % 10) (48 + byte % 10) 46 }
{
    u64::from(0x2e303030 + byte * 65536 - byte / 10 * 655104 - byte / 100 * 2559)
}

// A byte in decimal that ends before `end`. Its dot would be the fifth byte, and is not stored. It stays beside the next
// one, which has a dot: the two stores begin at other places, and one function of both would take the place, the factor and
// the text as parameters.
fn put_decimal(text: &mut [u8], end: usize, byte: u32)
    requires { (4 ≤ end) × (end ≤ length text.old) × (byte < 256) }
    ensures { PutsBack (decimal_text byte) end text.old text.new }
{
    put_four(text, end - 4, digits_and_dot(byte) * 256);
}

// One that ends before the dot at `end`, and the dot.
fn put_with_dot(text: &mut [u8], end: usize, byte: u32)
    requires { (3 ≤ end) × (end < length text.old) × (byte < 256) }
    ensures { PutsBack (decimal_text byte ++ 46 ∷ []) (end + 1) text.old text.new }
{
    put_four(text, end - 3, digits_and_dot(byte));
}

// "::ff" and "fff:", which overlap.
fn put_prefix(text: &mut [u8])
    requires { 7 ≤ length text.old }
    ensures { Puts (ascii "::ffff:") 7 text.old text.new 7 }
{
    put_four(text, 0, 0x66663a3a);
    put_four(text, 3, 0x3a666666);
}

// The text, and its length. The bytes behind it stay as they are.
pub(crate) fn put_mapped(text: &mut [u8], low: u64, ends: Ends) -> usize
    requires { EndsOf low ends × (ends.last ≤ length text.old) }
    ensures { Puts (mapped_text low) result text.old text.new result × (result ≡ length (mapped_text low)) }
{
    let x = last_four(low);
    put_decimal(text, ends.last, x % 256);
    put_with_dot(text, ends.third, x / 256 % 256);
    put_with_dot(text, ends.second, x / 65536 % 256);
    put_with_dot(text, ends.first, x / 16777216);
    put_prefix(text);
    ends.last
}
