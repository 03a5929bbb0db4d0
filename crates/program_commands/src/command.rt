// What a line asks for.
ghost use Rattle.std.specs.Prelude.{◌≡◌, ◌≤◌, length};
ghost use Rattle.program_commands.specs.Command.{label_of};
ghost use Rattle.program_commands.specs.Steps.{NumberRead, label_read, label_room, Labelled, Asks, address_in, unread_for};

use program_lines::find_byte;
use settings::Refusal;

#[derive(Clone, Copy)]
pub enum Op {
    Enter,
    Relabel,
    Delete,
    Find,
}

// A command: its address is the line's bytes from 2 to `end`, by a place, since a slice would lend the line. The label is 0 where the command takes none, as its contract
// (`Asks`) says.
#[derive(Clone, Copy)]
pub struct Request {
    pub op: Op,
    pub end: usize,
    pub label: u32,
}

pub const LINE_MAX: usize = 64;

// The label of a "+" or "=" line without one. It is not 0, which providers use for "watch only".
pub const MISSING_LABEL: u32 = 1;

// The number that at most three bytes spell, if they are digits.
fn number(text: &[u8]) -> Option<u32>
    requires { length text.now ≤ 3 }
    ensures { NumberRead text.now result }
{
    let mut n: u32 = 0;
    for b in text {
        if !b.is_ascii_digit() {
            return None;
        }
        n = n * 10 + u32::from(*b - b'0');
    }
    Some(n)
}

// The label that at most three bytes spell.
fn label_from(text: &[u8]) -> Option<u32>
    requires { length text.now ≤ 3 }
    ensures { result ≡ label_read (label_of text.now) }
{
    let [first, rest @ ..] = text else {
        return None;
    };
    if (*first == b'0') & (0 < rest.len()) {
        return None;
    }
    number(text)
}

// Where the space before a label can stand: with a label of one to three bytes it is one of the last four.
#[tactic(auto, unfolding(crate::specs::Steps::label_room))]
fn label_room(n: usize) -> usize
    requires { 3 ≤ n }
    ensures { result ≡ label_room n }
{
    if n < 6 {
        return 2;
    }
    n - 4
}

// The command in a line that begins with "+ " or "= " and goes on: `op` is its first byte's.
fn parse_labelled(line: &[u8], op: Op) -> Option<Request>
    requires { Labelled line.now op }
    ensures { Asks line.now result }
{
    let n = line.len();
    let end = find_byte(line, b' ', label_room(n));
    if end == n {
        let label = MISSING_LABEL;
        return Some(Request { op, end, label });
    }
    if end == 2 {
        return None;
    }
    let label = label_from(&line[end + 1..])?;
    Some(Request { op, end, label })
}

// The command in a line. Whether the address has a space is left to its reader, who meets one anyway: left free is
// what a line is that would be a command but for a space in its address. Whatever is answered, it stands for no
// command then (`requested`), and the bytes from 2 to its `end` lie within the line.
pub fn parse(line: &[u8]) -> Option<Request>
    ensures { Asks line.now result }
{
    let end = line.len();
    if LINE_MAX < end {
        return None;
    }
    let [first, b' ', _, ..] = line else {
        return None;
    };
    // Four tests one after the other are compiled to the same jump through a table.
    match *first {
        b'+' => parse_labelled(line, Op::Enter),
        b'-' => Some(Request {
            op: Op::Delete,
            end,
            label: 0,
        }),
        b'?' => Some(Request {
            op: Op::Find,
            end,
            label: 0,
        }),
        b'=' => parse_labelled(line, Op::Relabel),
        _ => None,
    }
}

// Why an address that was not read is refused: with a space in it the line is no command.
#[tactic(auto, using(crate::proofs::Places::unread_line, crate::proofs::Places::unread_text))]
pub fn unread(line: &[u8], end: usize) -> Refusal
    requires { (2 ≤ end) × (end ≤ length line.now) }
    ensures { result ≡ unread_for (address_in line.now end) }
{
    if find_byte(line, b' ', 2) < end {
        return Refusal::Line;
    }
    Refusal::Text
}
