// Answers the lines of standard input on standard output. All that is due is written before each read, so
// a read that waits delays no answer. Only `write_once` and `read_once` write and read; `answer_input` is the loop.
#![tactic(auto)]

mod streams;

ghost use Rattle.std.specs.Prelude.{◌≡◌, true, false, ◌⊎◌, ◌≤◌, ◌<◌, length, take, is_ok};
ghost use Rattle.program_commands.specs.Command.{longest_line};
ghost use Rattle.program_answers.specs.Program.{program_bytes};
ghost use Rattle.program_answers.specs.Answer.{answer_room};
ghost use Rattle.program_stream.specs.Output.{new_table};
ghost use Rattle.program_stream.specs.Steps.{due, Waits};
ghost use Rattle.filter.specs.World.{Wrote};
ghost use Rattle.filter.specs.Loop.{Placed, unanswered, Answered, ReadSome, Read, Ends, Ran};

use program_answers::TABLE_BYTES;
use program_stream::{Place, Step};
use std::io;
use std::io::ErrorKind;
use streams::{Streams, fail, read_once, write_once};

// What ends a run before its input does: an error, or a counter that no run uses up.
#[derive(Drop)]
enum Failure {
    Read(io::Error),
    Write(io::Error),
    Turns,
}

// Writes all of buf. A write that takes a part of it, or that a signal interrupts, is gone on with; one that takes nothing
// has failed. Nothing is promised of interrupted writes, so a counter that no run uses up shows that the loop ends.
fn write_out(io: &Streams, buf: &[u8]) -> io::Result<()>
    ensures { Wrote buf.now (is_ok result) }
{
    let mut done: usize = 0;
    for _ in 0..u64::MAX {
        if done >= buf.len() {
            return Ok(());
        }
        match write_once(io, &buf[done..]) {
            Ok(0) => return Err(io::Error::from(ErrorKind::WriteZero)),
            Ok(n) => done += n,
            Err(e) => {
                if e.kind() != ErrorKind::Interrupted {
                    return Err(e);
                }
            }
        }
    }
    Err(io::Error::from(ErrorKind::Interrupted))
}

// Where the loop stands, by places, since a slice would lend the buffer for as long: buf[at..end] has been read and is not answered yet; `skip` says that it begins inside a line that
// has been answered.
#[derive(Clone, Copy)]
struct State {
    at: usize,
    end: usize,
    skip: bool,
}

// Nothing has been read.
const START: State = State {
    at: 0,
    end: 0,
    skip: false,
};

// What the loop does next: answer more of what has been read, or read.
#[derive(Clone, Copy)]
enum Next {
    Answer(State),
    Read(State),
}

// out[..made] is due, and then what comes next.
#[derive(Clone, Copy)]
struct Due {
    made: usize,
    next: Next,
}

// One read to the start of buf, which is not empty, so that no bytes are the end of the input: then it answers none. A read
// that a signal interrupts has given no bytes, and is made again.
fn read_some(io: &Streams, buf: &mut [u8]) -> io::Result<Option<usize>>
    requires { 0 < length buf.old }
    ensures { ReadSome result buf.old buf.new }
{
    match read_once(io, buf) {
        Ok(0) => Ok(None),
        Ok(n) => Ok(Some(n)),
        Err(e) => {
            if e.kind() != ErrorKind::Interrupted {
                return Err(e);
            }
            Ok(Some(0))
        }
    }
}

// Reads into buf from `end` on; at the end of the input it answers none. After an error what is left may be a part of a
// line, and is not answered.
fn read_more(io: &Streams, buf: &mut [u8], s: State) -> io::Result<Option<State>>
    requires { (s.at ≤ s.end) × (s.end < length buf.old) }
    ensures { Read s buf.old result buf.new }
{
    let from = s.end;
    match read_some(io, &mut buf[from..])? {
        Some(n) => Ok(Some(State { end: from + n, ..s })),
        None => Ok(None),
    }
}

// The bytes of each of the two buffers.
const BUFFER_BYTES: usize = 65536;

// All memory of the run: the buffer that is read into, the table, for which the settings ask TABLE_BYTES, and the output.
#[derive(Drop)]
struct Memory {
    buf: [u8; BUFFER_BYTES],
    t: [u8; TABLE_BYTES],
    out: [u8; BUFFER_BYTES],
}

impl Memory {
    // Answers whole lines of buf[at..end] into out until that is full, or until they are all answered. Then what is left
    // moves to the start of buf: no more than a line, so that there is room for the next read.
    fn answer(&mut self, s: State) -> Due
        requires { Placed s self.old.buf }
        ensures { Answered s self.old.buf self.old.t result self.new.buf self.new.t self.new.out }
    {
        let end = s.end;
        let m = program_stream::consume(&self.buf[..end], s.at, s.skip, &mut self.t, &mut self.out);
        match m {
            Step::More(Place { at, made, skip }) => Due {
                made,
                next: Next::Answer(State { at, end, skip }),
            },
            Step::Rest(Place { at, made, skip }) => Due {
                made,
                next: Next::Read(State {
                    at: 0,
                    end: program_stream::keep(&mut self.buf, at, end),
                    skip,
                }),
            },
        }
    }

    // Reads and answers from a new table on, until the input ends, or until an error. Nothing is promised of what a read
    // gives, so here too a counter shows that the loop ends.
    fn answer_input(&mut self, io: &Streams) -> Result<State, Failure>
        requires { self.old.t ≡ new_table }
        ensures { Ends result self.new.buf self.new.t }
    {
        let mut s = START;
        for _ in 0..u64::MAX {
            let due = self.answer(s);
            let made = due.made;
            let out: &[u8] = &self.out;
            write_out(io, &out[..made]).map_err(Failure::Write)?;
            s = match due.next {
                Next::Answer(r) => r,
                Next::Read(r) => match read_more(io, &mut self.buf, r).map_err(Failure::Read)? {
                    Some(more) => more,
                    None => return Ok(r),
                },
            };
        }
        Err(Failure::Turns)
    }

    // The end of the input: the answer to a last line that lacks its line feed, written out.
    fn last_line(&mut self, io: &Streams, s: State) -> io::Result<()>
        requires { Placed s self.old.buf × Waits (unanswered s self.old.buf) }
        ensures { Wrote (due self.old.t s.skip (unanswered s self.old.buf)) (is_ok result) }
    {
        let buf: &[u8] = &self.buf;
        let part = &buf[s.at..s.end];
        let n = program_stream::finish(part, s.skip, &mut self.t, &mut self.out);
        write_out(io, &self.out[..n])
    }

    // The whole run.
    fn run(&mut self, io: &Streams) -> Result<(), Failure>
        requires { self.old.t ≡ new_table }
        ensures { Ran (is_ok result) }
    {
        let s = self.answer_input(io)?;
        self.last_line(io, s).map_err(Failure::Write)
    }
}

// The message of a run that has failed.
fn report(io: &Streams, failure: Failure) {
    match failure {
        Failure::Read(e) => fail(io, "read", e),
        Failure::Write(e) => fail(io, "write", e),
        Failure::Turns => {}
    }
}

fn main(rt: HostRuntime) {
    let io = Streams {
        input: rt.stdin(),
        output: rt.stdout(),
        errors: rt.stderr(),
    };
    let Ok(s) = program_answers::settings() else {
        fail(&io, "settings", io::Error::from(ErrorKind::InvalidInput));
        return;
    };
    let mut memory = Memory {
        buf: [0; BUFFER_BYTES],
        t: [0; TABLE_BYTES],
        out: [0; BUFFER_BYTES],
    };
    let _made = table_make::make(s, &mut memory.t);
    if let Err(failure) = memory.run(&io) {
        report(&io, failure);
    }
}
