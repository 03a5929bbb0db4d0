// Writing: the text of a key in hexadecimal groups is put together in a local array, and copied once
// its length is known, so that a refusal touches nothing. What stands in the array behind the text is
// of no account, so four digits are stored where fewer count.
ghost use Rattle.std.specs.Prelude.{◌≡◌, ◌+◌, ◌-◌, ◌*◌, ◌/◌, ◌%◌, ◌<◌, ◌≤◌, [], ◌∷◌, ◌++◌, true, false, length, take, drop, get_or, IfNone, IfSome};
ghost use Rattle.text_write.specs.Writing.{hex_digit, group_text, part_text, longest, text_of, is_mapped, written};
ghost use Rattle.text_write.specs.WriterSteps.{Gap, Puts, key_groups, packed, closed_text, run_marks};
ghost use Rattle.settings.specs.Reply.{Gives};
ghost use Rattle.text_write.specs.Answers.{write_call};

use crate::four::put_four;
use crate::mapped::{decimal_ends, is_mapped, put_mapped};
use keys::Key;
use settings::Refusal;

// A run of zero groups.
#[derive(Clone, Copy)]
struct Run {
    start: usize,
    count: usize,
}

// The group at a place of the eight.
fn group_at(key: Key, i: usize) -> u16
    requires { i < 8 }
    ensures { result ≡ get_or (key_groups key) i 0 }
{
    let half = if i < 4 { key.high } else { key.low };
    ((half >> (48 - 16 * (i % 4))) % 65536) as u16
}

// The four hexadecimal digits of a group, one a byte, the first in the lowest.
fn digits(group: u16) -> u32
    ensures { result ≡ packed (group / 4096) (group / 256 % 16) (group / 16 % 16) (group % 16) }
{
    let group = u32::from(group);
    group / 4096 + group / 256 % 16 * 256 + group / 16 % 16 * 65536 + group % 16 * 16777216
}

// A digit d in each byte becomes its character, 48 + d or 87 + d: only from 10 on does d + 6 reach 16.
fn characters(group: u16) -> u32
    ensures { result ≡ packed (hex_digit (group / 4096)) (hex_digit (group / 256 % 16)) (hex_digit (group / 16 % 16)) (hex_digit (group % 16)) }
{
    let x = digits(group);
    x + 0x30303030 + (((x + 0x06060606) / 16) & 0x01010101) * 39
}

// How many digits the text of a group has: one for every four bits that it needs, and one for 0.
fn digit_count(group: u16) -> u32
    ensures { result ≡ length (group_text group) }
{
    (35 - u32::leading_zeros(u32::from(group) / 2 * 2 + 1)) / 4
}

// A group and a colon. The group is moved up, so that its first digit that counts comes first. `text` and `at` stay two
// parameters: the contracts say what stands in the lent bytes and what has not changed, and a struct that holds a borrow of
// them would say the same of its fields.
fn put_group(text: &mut [u8], at: usize, group: u16) -> usize
    requires { at + 5 ≤ length text.old }
    ensures { Puts (take at text.old ++ (group_text group ++ 58 ∷ [])) (at + 5) text.old text.new result }
{
    let n = digit_count(group);
    put_four(text, at, u64::from(characters(group << (16 - 4 * n))));
    let end = at + n as usize;
    text[end] = b':';
    end + 1
}

// The groups from `from` up to `to`, a colon after each.
fn put_groups(text: &mut [u8], at: usize, key: Key, from: usize, to: usize) -> usize
    requires { (from ≤ to) × (to ≤ 8) × (at + 5 * (to - from) ≤ length text.old) }
    ensures { Puts (take at text.old ++ closed_text (drop from (take to (key_groups key)))) (at + 5 * (to - from)) text.old text.new result }
{
    let mut end = at;
    for i in from..to {
        end = put_group(text, end, group_at(key, i));
    }
    end
}

// What stands before the second colon of "::": the groups before the run, or nothing, and a colon.
fn put_front(text: &mut [u8], key: Key, to: usize) -> usize
    requires { (to ≤ 8) × (5 * to + 1 ≤ length text.old) }
    ensures { Puts (part_text (take to (key_groups key)) ++ 58 ∷ []) (5 * to + 1) text.old text.new result }
{
    if to == 0 {
        text[0] = b':';
        return 1;
    }
    put_groups(text, 0, key, 0, to)
}

// The groups from `from` on, which end the text: the colon after the last is left out.
fn put_back(text: &mut [u8], at: usize, key: Key, from: usize) -> usize
    requires { (from ≤ 8) × (at + 5 * (8 - from) ≤ length text.old) }
    ensures { Puts (take at text.old ++ part_text (drop from (key_groups key))) (at + 5 * (8 - from)) text.old text.new result }
{
    if from == 8 {
        return at;
    }
    put_groups(text, at, key, from, 8) - 1
}

// A bit for each group, the first in the lowest: 1 for a zero group.
fn zero_groups(key: Key) -> u32
    ensures { result ≡ run_marks 1 (key_groups key) }
{
    let mut marks: u32 = 0;
    for i in (0..8).rev() {
        marks = marks * 2 + u32::from(group_at(key, i) == 0);
    }
    marks
}

// The longest run of two or more zero groups, the first of equals. `marks` has a bit for each place
// where a run of `count` begins; a longer run begins where the next place has one too.
fn longest_run(key: Key) -> Option<Run>
    ensures none { IfNone result ((longest (key_groups key)).1 < 2) }
    ensures some { IfSome result (Gap (key_groups key)) }
{
    let single = zero_groups(key);
    let mut marks = single & (single / 2);
    if marks == 0 {
        return None;
    }
    let mut count: usize = 2;
    let mut longer = marks & (marks / 2);
    // The marks that are left end it, and not a number.
    while longer != 0 {
        marks = longer;
        count += 1;
        longer = marks & (marks / 2);
    }
    let start = u32::trailing_zeros(marks) as usize;
    Some(Run { start, count })
}

// The text of a key in hexadecimal groups, and its length.
fn put_hexadecimal(text: &mut [u8], key: Key) -> usize
    requires { 40 ≤ length text.old }
    ensures { Puts (text_of (key_groups key)) 40 text.old text.new result }
{
    let Some(Run { start, count }) = longest_run(key) else {
        return put_back(text, 0, key, 0);
    };
    let end = put_front(text, key, start);
    text[end] = b':';
    put_back(text, end + 1, key, start + count)
}

// The text of a key, and its length. What the rest of the first 40 bytes holds is left free: four
// digits are stored where fewer count, and a colon after the last group. Callers read the text alone,
// or write on behind it. The bytes from place 40 on stay as they are.
pub fn put_text(text: &mut [u8], key: Key) -> usize
    requires { 40 ≤ length text.old }
    ensures { Puts (written key.high key.low) 40 text.old text.new result }
{
    if is_mapped(key) {
        return put_mapped(text, key.low, decimal_ends(key.low));
    }
    put_hexadecimal(text, key)
}

// The first n bytes of the local array, which has room for any text; the rest of `out` is left as it is.
fn copy(text: &[u8], n: usize, out: &mut [u8])
    requires { (n ≤ length text.now) × (n ≤ length out.old) }
    ensures { out.new ≡ take n text.now ++ drop n out.old }
{
    out[..n].copy_from_slice(&text[..n]);
}

// Writes the text of a mapped address, if it fits.
fn write_mapped(key: Key, out: &mut [u8]) -> Result<usize, Refusal>
    requires { is_mapped key.high key.low ≡ true }
    ensures { Gives (write_call key out.old) result out.new }
{
    let ends = decimal_ends(key.low);
    if out.len() < ends.last {
        return Err(Refusal::Output);
    }
    Ok(put_mapped(out, key.low, ends))
}

// Writes the text of any other address, if it fits.
fn write_hexadecimal(key: Key, out: &mut [u8]) -> Result<usize, Refusal>
    requires { is_mapped key.high key.low ≡ false }
    ensures { Gives (write_call key out.old) result out.new }
{
    // At most 39 bytes, and the colon that is left out again.
    let mut text = [0u8; 40];
    let n = put_hexadecimal(&mut text, key);
    if out.len() < n {
        return Err(Refusal::Output);
    }
    copy(&text, n, out);
    Ok(n)
}

// Writes the text of a key, if it fits.
pub fn write(key: Key, out: &mut [u8]) -> Result<usize, Refusal>
    ensures { Gives (write_call key out.old) result out.new }
{
    if is_mapped(key) {
        return write_mapped(key, out);
    }
    write_hexadecimal(key, out)
}
