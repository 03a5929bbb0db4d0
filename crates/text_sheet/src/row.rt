// One line of a page: an address at the left, a label at the right, and a line feed.
ghost use Rattle.std.specs.Prelude.{◌≡◌, ◌++◌, ◌-◌, ◌≤◌, length, take, drop, replicate};
ghost use Rattle.text_write.specs.Decimal.{decimal_text};
ghost use Rattle.text_write.specs.Writing.{written};
ghost use Rattle.text_sheet.specs.Row.{row, heading};

use keys::Key;

// A line without its line feed, and with it.
const COLUMNS: usize = 50;

pub(crate) const ROW_BYTES: usize = 51;

// Spaces from one place up to another: here and below places of the whole line, whose bytes before and behind stay. Tried: `fill` takes five instructions more a row.
fn put_spaces(line: &mut [u8], from: usize, to: usize)
    requires { (from ≤ to) × (to ≤ length line.old) }
    ensures { line.new ≡ take from line.old ++ (replicate (to - from) 32 ++ drop to line.old) }
{
    for i in from..to {
        line[i] = b' ';
    }
}

// A number in decimal that ends before `end`, the last digit first; by hand, since no clause of std says what `write!` puts. How many there are is known only at the end, so that
// no `for` over places is plainer.
fn put_right(line: &mut [u8], end: usize, n: u32)
    requires { (length (decimal_text n) ≤ end) × (end ≤ length line.old) }
    ensures { line.new ≡ take (end - length (decimal_text n)) line.old ++ (decimal_text n ++ drop end line.old) }
{
    let mut i = end;
    let mut v = n;
    while v >= 10 {
        i -= 1;
        line[i] = 48 + (v % 10) as u8;
        v /= 10;
    }
    line[i - 1] = 48 + v as u8;
}

// A row. What `put_text` leaves behind the address is free, so the spaces come after it.
pub(crate) fn put_row(line: &mut [u8], key: Key, label: u32)
    requires { 51 ≤ length line.old }
    ensures { line.new ≡ row (written key.high key.low) (decimal_text label) ++ drop 51 line.old }
{
    let n = text_write::put_text(line, key);
    put_spaces(line, n, COLUMNS);
    put_right(line, COLUMNS, label);
    line[COLUMNS] = b'\n';
}

// The heading.
pub(crate) fn put_heading(line: &mut [u8])
    requires { 51 ≤ length line.old }
    ensures { line.new ≡ heading ++ drop 51 line.old }
{
    line[..ROW_BYTES].copy_from_slice(b"ADDRESS                                      LABEL\n");
}
