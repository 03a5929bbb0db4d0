// What a command comes to, for the key that its address spells.
ghost use Rattle.std.specs.Prelude.{◌≡◌, true, ◌≤◌, Ok, length};
ghost use Rattle.settings.specs.Layout.{layout_of};
ghost use Rattle.settings.specs.Reply.{Gives};
ghost use Rattle.table.specs.Calls.{key_call};
ghost use Rattle.table_find.specs.Seek.{open_of, sought_of};
ghost use Rattle.program_commands.specs.Command.{takes_label};
ghost use Rattle.program_answers.specs.Program.{program, program_bytes};
ghost use Rattle.program_answers.specs.Outcome.{verb_of};

use keys::Key;
use program_commands::Op;
use settings::{Blocks, Layout, Refusal, Settings};
use table::Said;
use table_delete::delete_sought;
use table_enter::enter_sought;
use table_find::{Sought, fits, seek};
use table_relabel::relabel_sought;

const SETTINGS: Settings = Settings {
    w: 128,
    bii: 8,
    sib: 4,
    nob: 64,
    sio: 3,
    val: 8,
    a: 97,
    b: 31,
};

// The bytes that they ask for the table.
pub const TABLE_BYTES: usize = 19681;

// The settings, by their constructor, which does not refuse them.
pub fn settings() -> Result<Settings, Refusal>
    ensures { result ≡ Ok program }
{
    Settings::new(
        SETTINGS.w,
        SETTINGS.bii,
        SETTINGS.sib,
        SETTINGS.nob,
        SETTINGS.sio,
        SETTINGS.val,
        SETTINGS.a,
        SETTINGS.b,
    )
}

// The layout of the settings, known before the program runs: no call computes it again.
fn layout() -> Layout
    ensures { result ≡ layout_of program }
{
    Layout {
        bie: 120,
        val: SETTINGS.val as usize,
        slot: 128,
        sib: SETTINGS.sib as usize,
        nob: SETTINGS.nob as usize,
        sio: SETTINGS.sio as usize,
        lists: 256,
        owner: 8,
        link: 6,
        basic: Blocks {
            start: 7,
            counter: 3,
            bits: 515,
        },
        overflow: Blocks {
            start: 131847,
            counter: 2,
            bits: 400,
        },
        bits: 157447,
        bytes: TABLE_BYTES,
    }
}

// Enter or relabel, once the key was sought.
fn apply_labelled(
    op: Op,
    label: u32,
    t: &mut [u8],
    g: Layout,
    key: Key,
    v: Sought,
) -> Result<Said, Refusal>
    requires { (takes_label op ≡ true) × (open_of program (length t.old) key ≡ Ok g) × (v ≡ sought_of program t.old key) }
    ensures { Gives (key_call program t.old (verb_of op label) key) result t.new }
{
    if !fits(u64::from(label), SETTINGS.val) {
        return Err(Refusal::Label);
    }
    match op {
        Op::Enter => enter_sought(t, SETTINGS, g, key, v, label),
        _ => relabel_sought(t, SETTINGS, g, key, v, label),
    }
}

// The command on the table, behind the checks that its settings pass. The key is sought before the commands part, so that
// find is there once, for the compiler to join with what is known of the layout. A `match` of all four would be a jump
// through a table.
pub(crate) fn apply(op: Op, label: u32, t: &mut [u8], key: Key) -> Result<Said, Refusal>
    requires { program_bytes ≤ length t.old }
    ensures { Gives (key_call program t.old (verb_of op label) key) result t.new }
{
    let g = layout();
    let v = seek(SETTINGS, g, t, key);
    match op {
        Op::Delete => delete_sought(t, SETTINGS, g, key, v),
        Op::Find => v.found,
        _ => apply_labelled(op, label, t, g, key, v),
    }
}
