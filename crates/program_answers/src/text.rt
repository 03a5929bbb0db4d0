// Words and numbers, put at a place of a lent buffer. Each function answers the place behind what it put, and
// takes a place and no rest of the buffer: its contract says what stands before it too.
ghost use Rattle.std.specs.Prelude.{◌+◌, ◌≤◌, ◌<◌, [], ◌∷◌, length};
ghost use Rattle.text_write.specs.Decimal.{decimal_text};
ghost use Rattle.program_answers.specs.Steps.{Put};

// Tried: `copy_from_slice` tests whether the two overlap, which takes five instructions more a word.
pub(crate) fn put(text: &[u8], out: &mut [u8], at: usize) -> usize
    requires { at + length text.now ≤ length out.old }
    ensures { Put text.now out.old at out.new result }
{
    for i in 0..text.len() {
        out[at + i] = text[i];
    }
    at + text.len()
}

// The digit d.
fn put_digit(d: u32, out: &mut [u8], at: usize) -> usize
    requires { (d < 10) × (at < length out.old) }
    ensures { Put ((48 + d) ∷ []) out.old at out.new result }
{
    out[at] = 48 + d as u8;
    at + 1
}

// A number of any length, by hand, since no clause of std says which bytes `write!` puts. It calls itself, so that it is not inlined where the short ones are.
fn put_digits(n: u32, out: &mut [u8], at: usize) -> usize
    requires { at + length (decimal_text n) ≤ length out.old }
    ensures { Put (decimal_text n) out.old at out.new result }
{
    if n < 10 {
        return put_digit(n, out, at);
    }
    let k = put_digits(n / 10, out, at);
    put_digit(n % 10, out, k)
}

// A number. Labels and counts have one to three digits.
pub(crate) fn put_decimal(n: u32, out: &mut [u8], at: usize) -> usize
    requires { at + 10 ≤ length out.old }
    ensures { Put (decimal_text n) out.old at out.new result }
{
    if n < 10 {
        return put_digit(n, out, at);
    }
    if n < 100 {
        let k = put_digit(n / 10, out, at);
        return put_digit(n % 10, out, k);
    }
    if n < 1000 {
        let k = put_digit(n / 100, out, at);
        let j = put_digit(n / 10 % 10, out, k);
        return put_digit(n % 10, out, j);
    }
    put_digits(n, out, at)
}
