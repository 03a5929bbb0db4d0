// The run of digits, colons and dots that a text begins with is the address's text; what follows it is no fault.
ghost use Rattle.std.specs.Prelude.{◌≡◌, not, min, length, eqb};
ghost use Rattle.text_read.specs.Class.{class_of, other};
ghost use Rattle.text_run.specs.Run.{run};
ghost use Rattle.text_run.specs.Answers.{taken_of};

use crate::Taken;
use settings::Refusal;

// A legal text has at most 45 bytes: one more tells that the run is too long, so that the time of a call has a bound.
const MOST: usize = 46;

// Whether a byte is a hexadecimal digit, a colon or a dot. It has no jump and looks nothing up, so that LLVM makes one
// vector comparison of sixteen.
fn in_run(b: u8) -> bool
    ensures { result ≡ not (eqb (class_of b) other) }
{
    (b'0' <= b) & (b <= b'9')
        | (b'A' <= b) & (b <= b'F')
        | (b'a' <= b) & (b <= b'f')
        | (b == b':')
        | (b == b'.')
}

// How many bytes the run has.
fn run_length(text: &[u8]) -> usize
    ensures { result ≡ length (run text.now) }
{
    byte_search::first(text, 0, |b| !in_run(b))
}

// Reads the run as a whole.
fn read_run(text: &[u8]) -> Result<Taken, Refusal>
    ensures { result ≡ taken_of text.now }
{
    let bytes = run_length(text);
    let key = text_read::read(&text[..bytes])?;
    Ok(Taken { key, bytes })
}

// How many bytes of a text decide what is read of it.
fn looked_at(length: usize) -> usize
    ensures { result ≡ min 46 length }
{
    length.min(MOST)
}

// Reads the address that a text begins with.
pub fn read(text: &[u8]) -> Result<Taken, Refusal>
    ensures { result ≡ taken_of text.now }
{
    let n = looked_at(text.len());
    read_run(&text[..n])
}
