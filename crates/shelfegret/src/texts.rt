// The calls with texts, reading and writing, and pages.
ghost use Rattle.std.specs.Prelude.{◌≡◌};
ghost use Rattle.settings.specs.Reply.{answering, Gives};
ghost use Rattle.table.specs.Calls.{find, enter, relabel, delete};
ghost use Rattle.text_read.specs.Answers.{reading_of};
ghost use Rattle.text_write.specs.Answers.{write_call};
ghost use Rattle.text_calls.specs.TextCalls.{text_call};
ghost use Rattle.text_sheet.specs.Answers.{page_call};
ghost use Rattle.shelfegret.specs.Reply.{read_reply, number_reply, text_reply};

use crate::Answer;
use crate::answers::{answered, measured, parsed};
use keys::Key;
use settings::Settings;

// "held" with the label, or "none", and the key that the text spells.
#[unsafe(no_mangle)]
pub extern "C" fn shelfegret_find_text(s: Settings, t: &[u8], text: &[u8]) -> Answer
    ensures { result ≡ text_reply (text_call s t.now find text.now).answer }
{
    let a = text_calls::find_text(s, t, text);
    let key = a.key;
    let found = a.answer;
    answered(key, found)
}

// "added" with the label, and the key that the text spells; one that is held is refused.
#[unsafe(no_mangle)]
pub extern "C" fn shelfegret_enter_text(
    s: Settings,
    t: &mut [u8],
    text: &[u8],
    label: u64,
) -> Answer
    ensures { Gives (answering text_reply (text_call s t.old (enter label) text.now)) result t.new }
{
    let a = text_calls::enter_text(s, t, text, label);
    let key = a.key;
    let entered = a.answer;
    answered(key, entered)
}

// "relabelled" with the old label, or "none", and the key that the text spells.
#[unsafe(no_mangle)]
pub extern "C" fn shelfegret_relabel_text(
    s: Settings,
    t: &mut [u8],
    text: &[u8],
    label: u64,
) -> Answer
    ensures { Gives (answering text_reply (text_call s t.old (relabel label) text.now)) result t.new }
{
    let a = text_calls::relabel_text(s, t, text, label);
    let key = a.key;
    let relabelled = a.answer;
    answered(key, relabelled)
}

// "gone" with the label, or "none", and the key that the text spells.
#[unsafe(no_mangle)]
pub extern "C" fn shelfegret_delete_text(s: Settings, t: &mut [u8], text: &[u8]) -> Answer
    ensures { Gives (answering text_reply (text_call s t.old delete text.now)) result t.new }
{
    let a = text_calls::delete_text(s, t, text);
    let key = a.key;
    let deleted = a.answer;
    answered(key, deleted)
}

// The key that the text spells.
#[unsafe(no_mangle)]
pub extern "C" fn shelfegret_read_text(text: &[u8]) -> Answer
    ensures { result ≡ read_reply (reading_of text.now) }
{
    parsed(text_read::read(text))
}

// The length of the key's text, which is then the front of the lent bytes.
#[unsafe(no_mangle)]
pub extern "C" fn shelfegret_write_text(key: Key, out: &mut [u8]) -> Answer
    ensures { Gives (answering number_reply (write_call key out.old)) result out.new }
{
    measured(text_write::write(key, out))
}

// The number of bytes of the page.
#[unsafe(no_mangle)]
pub extern "C" fn shelfegret_page(s: Settings, t: &[u8], page: u64, out: &mut [u8]) -> Answer
    ensures { Gives (answering number_reply (page_call s t.now page out.old)) result out.new }
{
    measured(text_sheet::page(s, t, page, out))
}
