// The calls on a table. None requires anything of its caller, and a refused one changes no lent byte.
ghost use Rattle.std.specs.Prelude.{◌≡◌};
ghost use Rattle.settings.specs.Made.{size_of};
ghost use Rattle.settings.specs.Reply.{answering, Gives};
ghost use Rattle.table.specs.Calls.{find, enter, relabel, delete, make_call, key_call, record_call, retrieve_call, check_call};
ghost use Rattle.shelfegret.specs.Reply.{number_reply, make_reply, answer_reply, record_reply, check_reply};

use crate::Answer;
use crate::answers::{answered, checked, made, measured, recorded};
use keys::Key;
use settings::Settings;

// The number of bytes that the table needs.
#[unsafe(no_mangle)]
pub extern "C" fn shelfegret_size(s: Settings) -> Answer
    ensures { result ≡ number_reply (size_of s) }
{
    measured(s.size())
}

// The table in the lent bytes becomes a new one; the answer has no word.
#[unsafe(no_mangle)]
pub extern "C" fn shelfegret_make(s: Settings, t: &mut [u8]) -> Answer
    ensures { Gives (answering make_reply (make_call s t.old)) result t.new }
{
    made(table_make::make(s, t))
}

// "held" with the label, or "none".
#[unsafe(no_mangle)]
pub extern "C" fn shelfegret_find(s: Settings, t: &[u8], key: Key) -> Answer
    ensures { result ≡ answer_reply key (key_call s t.now find key).answer }
{
    answered(key, table_find::find(s, t, key))
}

// "added" with the label; a key that is held is refused.
#[unsafe(no_mangle)]
pub extern "C" fn shelfegret_enter(s: Settings, t: &mut [u8], key: Key, label: u64) -> Answer
    ensures { Gives (answering (answer_reply key) (key_call s t.old (enter label) key)) result t.new }
{
    answered(key, table_enter::enter(s, t, key, label))
}

// "relabelled" with the old label, or "none".
#[unsafe(no_mangle)]
pub extern "C" fn shelfegret_relabel(s: Settings, t: &mut [u8], key: Key, label: u64) -> Answer
    ensures { Gives (answering (answer_reply key) (key_call s t.old (relabel label) key)) result t.new }
{
    answered(key, table_relabel::relabel(s, t, key, label))
}

// "gone" with the label, or "none".
#[unsafe(no_mangle)]
pub extern "C" fn shelfegret_delete(s: Settings, t: &mut [u8], key: Key) -> Answer
    ensures { Gives (answering (answer_reply key) (key_call s t.old delete key)) result t.new }
{
    answered(key, table_delete::delete(s, t, key))
}

// The key and the label of the nth record, or "none".
#[unsafe(no_mangle)]
pub extern "C" fn shelfegret_record(s: Settings, t: &[u8], n: u64) -> Answer
    ensures { result ≡ record_reply (record_call s t.now n) }
{
    recorded(table_record::record(s, t, n))
}

// The key and the label in the slot of a number, or "none".
#[unsafe(no_mangle)]
pub extern "C" fn shelfegret_retrieve(s: Settings, t: &[u8], slot: u64) -> Answer
    ensures { result ≡ record_reply (retrieve_call s t.now slot) }
{
    recorded(table_record::retrieve(s, t, slot))
}

// "sound" or "unsound".
#[unsafe(no_mangle)]
pub extern "C" fn shelfegret_check(s: Settings, t: &[u8], marks: &mut [u8]) -> Answer
    ensures { Gives (answering check_reply (check_call s t.now marks.old)) result marks.new }
{
    checked(table_check::check(s, t, marks))
}
