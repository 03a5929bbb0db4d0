// The call check.
ghost use Rattle.std.specs.Prelude.{◌≡◌, ◌*◌, ◌≤◌, length};
ghost use Rattle.settings.specs.Proper.{Proper};
ghost use Rattle.table.specs.Check.{table_sound};
ghost use Rattle.settings.specs.Reply.{Gives};
ghost use Rattle.table.specs.Calls.{check_call};
ghost use Rattle.table_check.specs.Answers.{Clear, Audited, checked_call};

use crate::bytes::{all_marked, zeros};
use crate::lists::{chain_sound, lists_sound};
use bits::zero_bytes;
use settings::{Layout, Refusal, Settings};

// Whether the table is sound; the marks are zero before. They are bits that the caller lends, since there is no heap.
fn sound(t: &[u8], g: Layout, marks: &mut [u8]) -> bool
    requires { Proper g × (g.bytes ≤ length t.now) × (g.nob ≤ 8 * length marks.old) × Clear marks.old }
    ensures { result ≡ table_sound g t.now }
{
    if !lists_sound(t, g, marks) {
        return false;
    }
    if !chain_sound(t, g, marks) {
        return false;
    }
    if !all_marked(marks, g.nob) {
        return false;
    }
    let fill = 8 * g.bytes - g.bits;
    zeros(t, g.bits, fill)
}

// The same with marks of any content, which are zero afterwards.
fn audited(t: &[u8], g: Layout, marks: &mut [u8]) -> bool
    requires { Proper g × (g.bytes ≤ length t.now) × (g.nob ≤ 8 * length marks.old) }
    ensures { Audited g t.now marks.old marks.new result }
{
    zero_bytes(marks);
    let answer = sound(t, g, marks);
    zero_bytes(marks);
    answer
}

fn checked(t: &[u8], g: Layout, marks: &mut [u8]) -> Result<bool, Refusal>
    requires { Proper g }
    ensures { Gives (checked_call g t.now marks.old) result marks.new }
{
    if t.len() < g.bytes {
        return Err(Refusal::Short);
    }
    let need = (g.nob + 7) / 8;
    if marks.len() < need {
        return Err(Refusal::Marks);
    }
    Ok(audited(t, g, &mut marks[..need]))
}

// Whether the table is sound. The marks that it needs are zero afterwards, and the bytes behind them stay (clause 6.11).
pub fn check(s: Settings, t: &[u8], marks: &mut [u8]) -> Result<bool, Refusal>
    ensures { Gives (check_call s t.now marks.old) result marks.new }
{
    let g = s.layout()?;
    checked(t, g, marks)
}
