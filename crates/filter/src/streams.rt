// Standard input and output: one read and one write at a time, and the message where one fails.
ghost use Rattle.std.specs.Prelude.{◌≤◌, length, take};
ghost use Rattle.filter.specs.World.{Moved, moved, Gives, Takes};

use std::io;
use std::io::{Read, Write};
use std::rt::{Stderr, Stdin, Stdout};

#[derive(Clone, Copy)]
pub(crate) struct Streams {
    pub input: Stdin,
    pub output: Stdout,
    pub errors: Stderr,
}

// One write of the bytes of part: it answers an error, or how many it has taken.
pub(crate) fn write_once(io: &Streams, part: &[u8]) -> io::Result<usize>
    ensures { Moved (length part.now) result × Takes (take (moved result) part.now) }
{
    let mut output = io.output;
    output.write(part)
}

// One read to the start of buf: it answers an error, or how many bytes it has given.
pub(crate) fn read_once(io: &Streams, buf: &mut [u8]) -> io::Result<usize>
    ensures { Moved (length buf.old) result × Gives (take (moved result) buf.new) }
{
    let mut input = io.input;
    input.read(buf)
}

// A message is cut short where there is no room: it is written in fixed memory.
const LINE_BYTES: usize = 320;

// Where the system's words for an error end: before the number that std writes behind them, in parentheses.
fn words_end(line: &[u8]) -> usize
    ensures { result ≤ length line.now }
{
    match line.iter().rposition(|b| *b == b'(') {
        Some(i) if 0 < i => i - 1,
        _ => line.len(),
    }
}

// Writes a line to standard error: what failed, a colon and why. A message that cannot be written is lost.
pub(crate) fn fail(io: &Streams, what: &str, error: io::Error) {
    let mut line = [0u8; LINE_BYTES];
    let mut room: &mut [u8] = &mut line;
    let _text = write!(room, "{what}: {error}");
    // No clause of std says that what is left of the room is no more than it was.
    let len = LINE_BYTES.saturating_sub(room.len());
    let end = words_end(&line[..len]);
    let mut errors = io.errors;
    let _message = errors.write_all(&line[..end]);
    let _feed = errors.write_all(b"\n");
}
