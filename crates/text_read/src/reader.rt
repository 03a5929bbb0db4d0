// Reads an address in one pass.
// A field is a place in the text and no rest of it, since places are answered.
ghost use Rattle.std.specs.Prelude.{◌≡◌, ◌+◌, ◌*◌, ◌^◌, ◌≤◌, ◌<◌, true, cond, ◌&&◌, length, drop, eqb, Some, None};
ghost use Rattle.text_read.specs.Class.{colon, dot};
ghost use Rattle.text_read.specs.Reading.{begins, tail, part, dotted as dottedGroups};
ghost use Rattle.text_read.specs.Answers.{reading_of};
ghost use Rattle.text_read.specs.Classes.{Five};
ghost use Rattle.text_read.specs.Gathered.{made};
ghost use Rattle.text_read.specs.ReaderSteps.{Fine, head_answer, by_length, until, numeral_of, group_in, decimal_in, dotted_from, to_end, part_at, gathered};

use crate::class::{COLON, DOT, class, class_at};
use crate::groups::{Groups, NO_GROUPS, PREFIX};
use keys::Key;
use settings::Refusal;

// A number in a field, and where the field ends.
#[derive(Clone, Copy)]
struct Numeral {
    value: u64,
    next: usize,
}

// Groups parted by single colons.
#[derive(Clone, Copy)]
enum Part {
    // They go to the end of the text.
    Whole(Groups),
    // "::" follows them, and ends before `next`.
    Gap { groups: Groups, next: usize },
}

// The numeral that ends before `next`, if its field ends there too: by the class of the byte at `next`.
fn ended(value: u64, next: usize, class: u64, end: u64) -> Option<Numeral>
    ensures { result ≡ cond (eqb class end) (Some (record { value = value; next = next })) None }
{
    if class == end {
        return Some(Numeral { value, next });
    }
    None
}

// x if the second byte of a field is no digit, else y if the third is none, else z. All three are computed already, so that
// the choice is compiled to no jump: one on the length of a group is badly predicted.
#[tactic(auto, unfolding(crate::specs::ReaderSteps::by_length))]
fn by_length(b: u64, c: u64, x: u64, y: u64, z: u64) -> u64
    ensures { result ≡ by_length b c x y z }
{
    if 15 < b {
        return x;
    }
    if 15 < c {
        return y;
    }
    z
}

// The group in the field from `at` on, by the classes of the five bytes from there: none is looked up twice.
#[tactic(auto, using(crate::proofs::Fields::digits_below, crate::proofs::Fields::five_most, crate::proofs::Fields::three_most))]
fn group_of(text: &[u8], at: usize, a: u64, b: u64, c: u64, d: u64, e: u64) -> Option<Numeral>
    requires { Five text.now at a b c d e × (at ≤ length text.now) }
    ensures { result ≡ group_in (until colon (drop at text.now)) at }
{
    if (a | b | c | d) < 16 {
        return ended(((a * 16 + b) * 16 + c) * 16 + d, at + 4, e, COLON);
    }
    if 15 < a {
        return None;
    }
    let value = by_length(b, c, a, a * 16 + b, (a * 16 + b) * 16 + c);
    let count = by_length(b, c, 1, 2, 3);
    let end = by_length(b, c, b, c, d);
    ended(value, at + (count as usize), end, COLON)
}

// The group in the field from `at` on. Only near the end of the text is each place tested.
fn group(text: &[u8], at: usize) -> Option<Numeral>
    requires { at ≤ length text.now }
    ensures { result ≡ group_in (until colon (drop at text.now)) at }
{
    if at + 4 < text.len() {
        let a = class(text[at]);
        let b = class(text[at + 1]);
        let c = class(text[at + 2]);
        let d = class(text[at + 3]);
        let e = class(text[at + 4]);
        return group_of(text, at, a, b, c, d, e);
    }
    let a = class_at(text, at, COLON);
    let b = class_at(text, at + 1, COLON);
    let c = class_at(text, at + 2, COLON);
    let d = class_at(text, at + 3, COLON);
    let e = class_at(text, at + 4, COLON);
    group_of(text, at, a, b, c, d, e)
}

// The decimal 0 to 255 in the field from `at` on, which goes to a dot or the end.
fn decimal(text: &[u8], at: usize) -> Option<Numeral>
    requires { at ≤ length text.now }
    ensures { result ≡ decimal_in (until dot (drop at text.now)) at }
{
    let a = class_at(text, at, DOT);
    if 9 < a {
        return None;
    }
    let b = class_at(text, at + 1, DOT);
    if 9 < b {
        return ended(a, at + 1, b, DOT);
    }
    if a == 0 {
        return None;
    }
    let c = class_at(text, at + 2, DOT);
    if 9 < c {
        return ended(a * 10 + b, at + 2, c, DOT);
    }
    let value = (a * 10 + b) * 10 + c;
    if 255 < value {
        return None;
    }
    ended(value, at + 3, class_at(text, at + 3, DOT), DOT)
}

// The number of n decimals that end the text at `next`: there must be four.
fn four(value: u64, n: usize, next: usize) -> Option<Numeral>
    ensures { result ≡ cond (eqb n 4) (Some (record { value = value; next = next })) None }
{
    if n == 4 {
        return Some(Numeral { value, next });
    }
    None
}

// The number below 2^32 that four decimals with dots stand for, from `from` to the end of the text. A `loop`, since the
// text's end and not a count ends it: a `for` over the four would read the last of them apart.
fn dotted(text: &[u8], from: usize) -> Option<Numeral>
    requires { from ≤ length text.now }
    ensures { result ≡ numeral_of (dotted_from 0 0 (drop from text.now)) (length text.now) }
{
    let mut value: u64 = 0;
    let mut count: usize = 0;
    let mut at = from;
    loop {
        let byte = decimal(text, at)?;
        if count == 4 {
            return None;
        }
        value = value * 256 + byte.value;
        count += 1;
        if byte.next == text.len() {
            return four(value, count, byte.next);
        }
        at = byte.next + 1;
    }
}

// The groups and the two of the dotted tail from `at` on: a field that is no group can only be that.
fn with_tail(text: &[u8], at: usize, groups: Groups) -> Option<Part>
    requires { at ≤ length text.now }
    ensures { result ≡ to_end groups.number groups.count (dottedGroups (drop at text.now)) }
{
    if 6 < groups.count() {
        return None;
    }
    let tail = dotted(text, at)?;
    Some(Part::Whole(groups.pushed(2, tail.value)))
}

// The groups that stand before a dotted tail at `at`. Where the text begins with it, it stands alone, and is read as the
// mapped address that ends in it.
fn before_tail(at: usize, groups: Groups) -> Groups
    ensures { result ≡ cond (eqb at 0) (made 65535 6) groups }
{
    if at == 0 {
        return PREFIX;
    }
    groups
}

// The groups from `from` on, up to "::" or the end of the text. A `loop`, since what follows a group decides whether one
// more is read, and where.
fn read_part(text: &[u8], from: usize) -> Option<Part>
    requires { from ≤ length text.now }
    ensures { result ≡ part_at 0 0 (drop from text.now) from }
{
    let mut groups = NO_GROUPS;
    let mut at = from;
    loop {
        let Some(Numeral { value, next }) = group(text, at) else {
            return with_tail(text, at, before_tail(at, groups));
        };
        if 7 < groups.count() {
            return None;
        }
        groups = groups.pushed(1, value);
        if next == text.len() {
            return Some(Part::Whole(groups));
        }
        at = next + 1;
        if at == text.len() {
            return None;
        }
        if class(text[at]) == COLON {
            return Some(Part::Gap {
                groups,
                next: at + 1,
            });
        }
    }
}

// The groups behind "::". One part follows, or nothing: a second "::" is not legal. Here and in `first_part` the slice is
// taken anew for the part, so that it stays in registers.
fn behind_gap(text: &[u8], at: usize) -> Option<Groups>
    requires { (0 < at) × (at ≤ length text.now) }
    ensures { result ≡ gathered (part true (drop at text.now)) }
{
    if at == text.len() {
        return Some(NO_GROUPS);
    }
    match read_part(&text[..], at)? {
        Part::Whole(tail) => Some(tail),
        Part::Gap { .. } => None,
    }
}

// The text begins with "::".
fn opens(text: &[u8]) -> bool
    ensures { result ≡ (begins text.now && begins (tail text.now)) }
{
    if text.len() < 2 {
        return false;
    }
    if class(text[0]) != COLON {
        return false;
    }
    class(text[1]) == COLON
}

// The part before "::", which may be empty, or the whole text.
fn first_part(text: &[u8]) -> Option<Part>
    ensures { (reading_of text.now ≡ head_answer text.now result) × Fine (length text.now) result }
{
    if opens(text) {
        return Some(Part::Gap {
            groups: NO_GROUPS,
            next: 2,
        });
    }
    read_part(&text[..], 0)
}

// Reads an address.
pub fn read(text: &[u8]) -> Result<Key, Refusal>
    ensures { result ≡ reading_of text.now }
{
    let Some(part) = first_part(text) else {
        return Err(Refusal::Text);
    };
    match part {
        Part::Gap { groups, next } => {
            let Some(tail) = behind_gap(text, next) else {
                return Err(Refusal::Text);
            };
            groups.filled(tail)
        }
        Part::Whole(groups) => groups.eight(),
    }
}
