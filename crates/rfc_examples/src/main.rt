// Reads each line of standard input as an address and writes it again, or the number of the refusal.
// Its input is examples of the RFCs and of our own; docs/DECISIONS.md says where what it must write comes from.
#![tactic(auto)]

ghost use Rattle.std.specs.Prelude.{◌≤◌, length};

use settings::Refusal;
use std::io::{ErrorKind, Read, Write};
use std::rt::{Stdin, Stdout};

// What is read of the input at most.
const MOST_BYTES: usize = 65536;

// "refused" and the number. A write that fails is passed over, here and below.
fn refuse(out: &mut Stdout, why: Refusal) {
    let _written = write!(out, "refused {}", why.number());
}

fn answer(out: &mut Stdout, line: &[u8]) {
    match text_read::read(line) {
        Err(why) => refuse(out, why),
        Ok(key) => {
            let mut text = [0u8; 39];
            match text_write::write(key, &mut text) {
                Err(why) => refuse(out, why),
                Ok(n) => {
                    let _written = out.write_all(&text[..n]);
                }
            }
        }
    }
    let _written = out.write_all(b"\n");
}

// Each line, without its line feed, which the last may lack.
fn answer_all(out: &mut Stdout, text: &[u8]) {
    for line in text.split_inclusive(|b| *b == b'\n') {
        answer(out, line.strip_suffix(b"\n").unwrap_or(line));
    }
}

// How many bytes of the input were read into the buffer: all of them, as many as it has room for, or those before a read
// that failed.
fn read_all(input: &mut Stdin, buffer: &mut [u8]) -> usize
    ensures { result ≤ length buffer.old }
{
    // What each read gives is added up, and no number of reads is known before.
    let mut n: usize = 0;
    for _ in 0..u64::MAX {
        if n == buffer.len() {
            return n;
        }
        match input.read(&mut buffer[n..]) {
            Ok(0) => return n,
            Ok(k) => n += k,
            Err(e) => {
                if e.kind() != ErrorKind::Interrupted {
                    return n;
                }
            }
        }
    }
    n
}

fn main(rt: HostRuntime) {
    let mut buffer = [0u8; MOST_BYTES];
    let n = read_all(&mut rt.stdin(), &mut buffer);
    answer_all(&mut rt.stdout(), &buffer[..n]);
}
