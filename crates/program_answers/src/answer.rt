// The answer to a line.
ghost use Rattle.std.specs.Prelude.{◌≡◌, ◌+◌, ◌≤◌, length, drop};
ghost use Rattle.text_write.specs.Writing.{written};
ghost use Rattle.program_answers.specs.Program.{program_bytes};
ghost use Rattle.program_answers.specs.Answer.{answer_room, word_text, numbers_text, refused_text, said_text, line_reply};
ghost use Rattle.program_answers.specs.Steps.{Change, Put, Wrote, key_reply, Answered};
ghost use Rattle.table.specs.declared.answers.Word.TheVariants as word;

use crate::outcome::apply;
use crate::text::{put, put_decimal};
use keys::Key;
use program_commands::{Request, parse, unread};
use settings::Refusal;
use table::{Said, Word};

// Room for any answer: an address of at most 39 bytes, a word, two numbers of at most ten digits.
pub const ANSWER_MAX: usize = 80;

// The words of a change but "added". The room for the longest is asked at a place, since the buffer is the caller's. The five words are told apart by one test after the other: a jump through a table
// would be mispredicted in every other line.
fn put_unadded(w: Word, out: &mut [u8], at: usize) -> usize
    requires { Change w × (w ≡ word.Added → ⊥) × (at + 12 ≤ length out.old) }
    ensures { Put (word_text w) out.old at out.new result }
{
    match w {
        Word::Gone => put(b" gone ", out, at),
        _ => put(b" relabelled ", out, at),
    }
}

// The words of a change.
fn put_change(w: Word, out: &mut [u8], at: usize) -> usize
    requires { Change w × (at + 12 ≤ length out.old) }
    ensures { Put (word_text w) out.old at out.new result }
{
    match w {
        Word::Added => put(b" added ", out, at),
        _ => put_unadded(w, out, at),
    }
}

// The words but "held".
fn put_unheld(w: Word, out: &mut [u8], at: usize) -> usize
    requires { (w ≡ word.Held → ⊥) × (at + 12 ≤ length out.old) }
    ensures { Put (word_text w) out.old at out.new result }
{
    match w {
        Word::None => put(b" none ", out, at),
        _ => put_change(w, out, at),
    }
}

fn put_word(w: Word, out: &mut [u8], at: usize) -> usize
    requires { at + 12 ≤ length out.old }
    ensures { Put (word_text w) out.old at out.new result }
{
    match w {
        Word::Held => put(b" held ", out, at),
        _ => put_unheld(w, out, at),
    }
}

// "refused" and the number. The bytes of `out` behind them stay.
pub fn refuse(why: Refusal, out: &mut [u8]) -> usize
    requires { answer_room ≤ length out.old }
    ensures { Wrote (refused_text why) out.new result × (drop result out.new ≡ drop result out.old) }
{
    let n = put(b"refused ", out, 0);
    let m = put_decimal(why.number(), out, n);
    put(b"\n", out, m)
}

// The label and the number compared, behind the word.
fn put_numbers(label: u32, compared: u32, out: &mut [u8], at: usize) -> usize
    requires { at + 22 ≤ length out.old }
    ensures { Put (numbers_text label compared) out.old at out.new result }
{
    let n = put_decimal(label, out, at);
    let m = put(b" ", out, n);
    let k = put_decimal(compared, out, m);
    put(b"\n", out, k)
}

// Address, word, label, compared.
fn say(key: Key, said: Said, out: &mut [u8]) -> usize
    requires { answer_room ≤ length out.old }
    ensures { Wrote (said_text (written key.high key.low) said.word said.label said.compared) out.new result }
{
    let n = text_write::put_text(out, key);
    let m = put_word(said.word, out, n);
    put_numbers(said.label, said.compared, out, m)
}

// The answer to a command whose address was read.
fn answer_key(q: Request, key: Key, t: &mut [u8], out: &mut [u8]) -> usize
    requires { (program_bytes ≤ length t.old) × (answer_room ≤ length out.old) }
    ensures { Answered (key_reply t.old q key) t.new out.new result }
{
    let op = q.op;
    match apply(op, q.label, t, key) {
        Ok(said) => say(key, said, out),
        Err(why) => refuse(why, out),
    }
}

// The answer to a line, and what the line does to the table. Left free: the bytes of `out` behind the answer, since an
// address is put with four digits a group where fewer count, and nobody reads them. Its length stays.
pub fn answer_line(line: &[u8], t: &mut [u8], out: &mut [u8]) -> usize
    requires { (program_bytes ≤ length t.old) × (answer_room ≤ length out.old) }
    ensures { Answered (line_reply t.old line.now) t.new out.new result }
{
    let Some(q) = parse(line) else {
        return refuse(Refusal::Line, out);
    };
    let end = q.end;
    match text_read::read(&line[2..end]) {
        Ok(key) => answer_key(q, key, t, out),
        Err(_) => refuse(unread(line, end), out),
    }
}
