// Relabel (clauses 6.15 and 6.16): "none", or "relabelled" with the old label, and the new one stands in its place.
ghost use Rattle.std.specs.Prelude.{◌≡◌, ◌^◌, ◌<◌, Ok, length};
ghost use Rattle.settings.specs.Reply.{Gives};
ghost use Rattle.table.specs.Calls.{relabel, key_call};
ghost use Rattle.table_find.specs.Seek.{open_of, sought_of};

use crate::label::{relabel_place, relabel_plain};
use keys::Key;
use settings::{Layout, Refusal, Settings};
use table::{Said, Word};
use table_find::{Sought, admit, find_in, fits};

// The key, once it was sought. Most labels are one store, which is made here; `relabel_place` tells all places apart. Who calls
// it has it inlined: what find answered would be laid in memory for a call. So its fields are copied singly too, in both
// answers: an answer that is handed on is copied whole, and waits.
#[inline(always)]
fn relabel_found(
    t: &mut [u8],
    s: Settings,
    g: Layout,
    key: Key,
    v: Sought,
    label: u32,
) -> Result<Said, Refusal>
    requires { (open_of s (length t.old) key ≡ Ok g) × (v ≡ sought_of s t.old key) × (label < 2 ^ s.val) }
    ensures { Gives (key_call s t.old (relabel label) key) result t.new }
{
    let place = v.place;
    let list = place.list;
    let found = v.found?;
    let Word::Held = found.word else {
        return Ok(Said {
            word: found.word,
            ..found
        });
    };
    let n = found.compared as usize;
    if (n <= g.sib) & (g.link <= g.bie) {
        relabel_plain(t, g, list, n - 1, label);
    } else {
        relabel_place(t, g, list, n - 1, label);
    }
    Ok(Said {
        word: Word::Relabelled,
        ..found
    })
}

// The key, once it was sought. The settings and the key are named by the contract alone.
pub fn relabel_sought(
    t: &mut [u8],
    s: Settings,
    g: Layout,
    key: Key,
    v: Sought,
    label: u32,
) -> Result<Said, Refusal>
    requires { (open_of s (length t.old) key ≡ Ok g) × (v ≡ sought_of s t.old key) × (label < 2 ^ s.val) }
    ensures { Gives (key_call s t.old (relabel label) key) result t.new }
{
    relabel_found(t, s, g, key, v, label)
}

// A refusal, and "none", leave every byte.
pub fn relabel(s: Settings, t: &mut [u8], key: Key, label: u64) -> Result<Said, Refusal>
    ensures { Gives (key_call s t.old (relabel label) key) result t.new }
{
    let g = s.layout()?;
    admit(s, g, t, key)?;
    if !fits(label, s.val) {
        return Err(Refusal::Label);
    }
    let place = key.place(s);
    let list = place.list;
    let found = find_in(t, g, list, place.entry);
    relabel_found(t, s, g, key, Sought { place, found }, label as u32)
}
