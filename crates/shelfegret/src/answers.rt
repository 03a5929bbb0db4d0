// Each call's own answer as the struct that C gets.
ghost use Rattle.std.specs.Prelude.{◌≡◌};
ghost use Rattle.table.specs.Answer.{word_number};
ghost use Rattle.shelfegret.specs.Reply.{refused_reply, saying, numbered, make_reply, answer_reply, record_reply, check_reply, read_reply, number_reply};

use crate::Answer;
use keys::Key;
use settings::Refusal;
use table::{Record, Said, Word};

// Numbers of words; those of find, enter, relabel and delete are computed (`number_of`). 0 is no word.
const NO_WORD: u32 = 0;

const NONE: u32 = 4;

const RECORD: u32 = 5;

const SOUND: u32 = 6;

const UNSOUND: u32 = 7;

const NO_KEY: Key = Key { high: 0, low: 0 };

// A refusal: its number, and all else 0.
fn refused(why: Refusal) -> Answer
    ensures { result ≡ refused_reply why }
{
    Answer {
        code: why.number(),
        word: NO_WORD,
        key: NO_KEY,
        label: 0,
        compared: 0,
        number: 0,
    }
}

// Accepted, with a word and what goes with it.
fn said(word: u32, key: Key, label: u32, compared: u32, number: u64) -> Answer
    ensures { result ≡ saying word key label compared number }
{
    Answer {
        code: 0,
        word,
        key,
        label,
        compared,
        number,
    }
}

// Accepted, with a number alone.
fn counted(number: usize) -> Answer
    ensures { result ≡ numbered number }
{
    Answer {
        code: 0,
        word: NO_WORD,
        key: NO_KEY,
        label: 0,
        compared: 0,
        number: number as u64,
    }
}

// The bytes of a table, of a text or of a page.
pub(crate) fn measured(a: Result<usize, Refusal>) -> Answer
    ensures { result ≡ number_reply a }
{
    match a {
        Ok(n) => counted(n),
        Err(why) => refused(why),
    }
}

pub(crate) fn made(a: Result<(), Refusal>) -> Answer
    ensures { result ≡ make_reply a }
{
    match a {
        Ok(()) => counted(0),
        Err(why) => refused(why),
    }
}

// A word's number: 1 to 4, and 8, since 5 to 7 are those of record and check. It is computed from its place among the words:
// of an enum whose numbers have a gap the compiler would make a jump through a table, in every call.
fn number_of(word: Word) -> u32
    ensures { result ≡ word_number word }
{
    let n = word as u32;
    n + 1 + n / 4 * 3
}

// What find, enter, relabel and delete answer, for the key asked for.
pub(crate) fn answered(key: Key, a: Result<Said, Refusal>) -> Answer
    ensures { result ≡ answer_reply key a }
{
    match a {
        Ok(s) => said(number_of(s.word), key, s.label, s.compared, s.slot),
        Err(why) => refused(why),
    }
}

pub(crate) fn recorded(a: Result<Option<Record>, Refusal>) -> Answer
    ensures { result ≡ record_reply a }
{
    match a {
        Ok(Some(r)) => said(RECORD, r.key, r.label, 0, 0),
        Ok(None) => said(NONE, NO_KEY, 0, 0, 0),
        Err(why) => refused(why),
    }
}

pub(crate) fn checked(a: Result<bool, Refusal>) -> Answer
    ensures { result ≡ check_reply a }
{
    match a {
        Ok(true) => said(SOUND, NO_KEY, 0, 0, 0),
        Ok(false) => said(UNSOUND, NO_KEY, 0, 0, 0),
        Err(why) => refused(why),
    }
}

pub(crate) fn parsed(a: Result<Key, Refusal>) -> Answer
    ensures { result ≡ read_reply a }
{
    match a {
        // Field by field: a copy of both halves at once would wait until both have reached the cache.
        Ok(key) => said(
            NO_WORD,
            Key {
                high: key.high,
                low: key.low,
            },
            0,
            0,
            0,
        ),
        Err(why) => refused(why),
    }
}
