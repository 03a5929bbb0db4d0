// Find: the label of a key, if the table holds it. Enter, relabel and delete seek their key by the same way.
#![tactic(auto)]

mod search;

ghost use Rattle.std.specs.Prelude.{◌≡◌, ◌^◌, ◌≤◌, Ok, ltb, length};
ghost use Rattle.table.specs.Calls.{find, key_call};
ghost use Rattle.settings.specs.Made.{laid_of};
ghost use Rattle.table_find.specs.Seek.{open_of, laid_if, sought_of};

use keys::{Key, Place};
pub use search::find_in;
use settings::{Layout, Refusal, Settings};
use table::Said;

// A key in its list: where it belongs, and what find answers.
#[derive(Clone, Copy)]
pub struct Sought {
    pub place: Place,
    pub found: Result<Said, Refusal>,
}

// Whether a call goes on to the table: the first of refusals 2 and 5 that is due, once the layout is known. The layout is not
// handed back: it would be copied at every call.
pub fn admit(s: Settings, g: Layout, t: &[u8], key: Key) -> Result<(), Refusal>
    requires { laid_of s ≡ Ok g }
    ensures { laid_if g result ≡ open_of s (length t.now) key }
{
    if t.len() < g.bytes {
        return Err(Refusal::Short);
    }
    if !key.within(s.w) {
        return Err(Refusal::Key);
    }
    Ok(())
}

// The key in a table that was opened for it. Calls that are made from several places write these lines out: a function that
// stays one hands its struct back through memory.
pub fn seek(s: Settings, g: Layout, t: &[u8], key: Key) -> Sought
    requires { open_of s (length t.now) key ≡ Ok g }
    ensures { result ≡ sought_of s t.now key }
{
    let place = key.place(s);
    let list = place.list;
    let found = find_in(t, g, list, place.entry);
    Sought { place, found }
}

// Whether a label has no bit above the low val.
pub fn fits(label: u64, val: u32) -> bool
    requires { val ≤ 32 }
    ensures { result ≡ ltb label (2 ^ val) }
{
    label >> val == 0
}

// Find (clause 6.4): "held" with the label, or "none".
pub fn find(s: Settings, t: &[u8], key: Key) -> Result<Said, Refusal>
    ensures { result ≡ (key_call s t.now find key).answer }
{
    let g = s.layout()?;
    admit(s, g, t, key)?;
    let place = key.place(s);
    let list = place.list;
    find_in(t, g, list, place.entry)
}
