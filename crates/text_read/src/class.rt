// What each byte of a text is for the reader.
ghost use Rattle.std.specs.Prelude.{◌≡◌};
ghost use Rattle.text_read.specs.Class.{class_of};
ghost use Rattle.text_read.specs.Classes.{class_at};

pub const COLON: u64 = 16;

pub const DOT: u64 = 17;

// The class of each byte value: a hexadecimal digit's value, 16 for a colon, 17 for a dot, 18 for any other.
// Numbers and not an enum: a table of an enum takes minutes to check. A `static`, since the compiler builds a constant
// anew wherever it is named.
static CLASSES: [u8; 256] = [
    18, 18, 18, 18, 18, 18, 18, 18, 18, 18, 18, 18, 18, 18, 18, 18, 18, 18, 18, 18, 18, 18, 18, 18,
    18, 18, 18, 18, 18, 18, 18, 18, 18, 18, 18, 18, 18, 18, 18, 18, 18, 18, 18, 18, 18, 18, 17, 18,
    0, 1, 2, 3, 4, 5, 6, 7, 8, 9, 16, 18, 18, 18, 18, 18, 18, 10, 11, 12, 13, 14, 15, 18, 18, 18,
    18, 18, 18, 18, 18, 18, 18, 18, 18, 18, 18, 18, 18, 18, 18, 18, 18, 18, 18, 18, 18, 18, 18, 10,
    11, 12, 13, 14, 15, 18, 18, 18, 18, 18, 18, 18, 18, 18, 18, 18, 18, 18, 18, 18, 18, 18, 18, 18,
    18, 18, 18, 18, 18, 18, 18, 18, 18, 18, 18, 18, 18, 18, 18, 18, 18, 18, 18, 18, 18, 18, 18, 18,
    18, 18, 18, 18, 18, 18, 18, 18, 18, 18, 18, 18, 18, 18, 18, 18, 18, 18, 18, 18, 18, 18, 18, 18,
    18, 18, 18, 18, 18, 18, 18, 18, 18, 18, 18, 18, 18, 18, 18, 18, 18, 18, 18, 18, 18, 18, 18, 18,
    18, 18, 18, 18, 18, 18, 18, 18, 18, 18, 18, 18, 18, 18, 18, 18, 18, 18, 18, 18, 18, 18, 18, 18,
    18, 18, 18, 18, 18, 18, 18, 18, 18, 18, 18, 18, 18, 18, 18, 18, 18, 18, 18, 18, 18, 18, 18, 18,
    18, 18, 18, 18, 18, 18, 18, 18, 18, 18, 18, 18, 18, 18,
];

// The class of a byte, as a number to count with.
pub(crate) fn class(byte: u8) -> u64
    ensures { result ≡ class_of byte }
{
    u64::from(CLASSES[usize::from(byte)])
}

// The class of the byte at i; the end of the text is as good as a byte of the class `end`.
#[tactic(auto, unfolding(crate::specs::Classes::class_at))]
pub(crate) fn class_at(text: &[u8], i: usize, end: u64) -> u64
    ensures { result ≡ class_at end text.now i }
{
    if i < text.len() {
        return class(text[i]);
    }
    end
}
