// Enter (clauses 6.5 and 6.6): "added" at the list's end; a key that is held is refused.
ghost use Rattle.std.specs.Prelude.{◌≡◌, ◌^◌, ◌<◌, Ok, length};
ghost use Rattle.settings.specs.Reply.{Gives};
ghost use Rattle.table.specs.Calls.{enter, key_call};
ghost use Rattle.table_find.specs.Seek.{open_of, sought_of};

use crate::append::{Item, append};
use keys::Key;
use settings::{Layout, Refusal, Settings};
use table::{Said, Word};
use table_find::{Sought, admit, find_in, fits};

// The key with its label, once it was sought. The settings and the key are named by the contract alone.
pub fn enter_sought(
    t: &mut [u8],
    s: Settings,
    g: Layout,
    key: Key,
    v: Sought,
    label: u32,
) -> Result<Said, Refusal>
    requires { (open_of s (length t.old) key ≡ Ok g) × (v ≡ sought_of s t.old key) × (label < 2 ^ s.val) }
    ensures { Gives (key_call s t.old (enter label) key) result t.new }
{
    let found = v.found?;
    let Word::None = found.word else {
        return Err(Refusal::Known);
    };
    let item = Item {
        entry: v.place.entry,
        label,
        compared: found.compared,
    };
    append(t, g, v.place.list, item)
}

// A refusal leaves every byte.
pub fn enter(s: Settings, t: &mut [u8], key: Key, label: u64) -> Result<Said, Refusal>
    ensures { Gives (key_call s t.old (enter label) key) result t.new }
{
    let g = s.layout()?;
    admit(s, g, t, key)?;
    if !fits(label, s.val) {
        return Err(Refusal::Label);
    }
    let place = key.place(s);
    let list = place.list;
    let found = find_in(t, g, list, place.entry);
    let v = Sought { place, found };
    enter_sought(t, s, g, key, v, label as u32)
}
