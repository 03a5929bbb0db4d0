// The calls on a table with texts. The settings are checked once and the text is read once; behind the checks a call is the
// table's own, with the key that the text spells.
ghost use Rattle.std.specs.Prelude.{◌≡◌, ◌<◌, ◌^◌, ◌∷◌, Ok, [], length, refl, ℕ};
ghost use Rattle.settings.specs.Due.{label_due};
ghost use Rattle.settings.specs.declared.settings.Settings.{Settings};
ghost use Rattle.settings.specs.Made.{laid_of};
ghost use Rattle.settings.specs.Reply.{Gives};
ghost use Rattle.table.specs.Calls.{Verb, delete, enter, find, key_call, relabel, verb_due};
ghost use Rattle.table_find.specs.Seek.{open_of, sought_of};
ghost use Rattle.text_calls.specs.TextCalls.{text_call};
ghost use Rattle.text_calls.specs.Admits.{admitted_of, or_refused};

use keys::Key;
use settings::{Layout, Refusal, Settings};
use table::Said;
use table_delete::delete_sought;
use table_enter::enter_sought;
use table_find::{Sought, find_in, fits};
use table_relabel::relabel_sought;
use text_read::read;

// The answer to a call with a text, and the key that the text spells; key 0, as C gets it, if a refusal comes before it is read.
#[derive(Clone, Copy)]
pub struct TextAnswer {
    pub key: Key,
    pub answer: Result<Said, Refusal>,
}

// The key of a text that goes to the lent table, or the first of refusals 2 to 4 that is due; the layout is known.
fn admit(s: Settings, g: Layout, t: &[u8], text: &[u8]) -> Result<Key, Refusal>
    requires { laid_of s ≡ Ok g }
    ensures { result ≡ admitted_of s t.now text.now }
{
    if t.len() < g.bytes {
        return Err(Refusal::Short);
    }
    if s.w != 128 {
        return Err(Refusal::Width);
    }
    read(text)
}

// The answer of a call; where it was refused before the text was read, that refusal, for key 0.
fn or_refused(called: Result<TextAnswer, Refusal>) -> TextAnswer
    ensures { result ≡ or_refused called }
{
    match called {
        Ok(answer) => answer,
        Err(why) => TextAnswer {
            key: Key { high: 0, low: 0 },
            answer: Err(why),
        },
    }
}

// Find of the address that the text spells.
pub fn find_text(s: Settings, t: &[u8], text: &[u8]) -> TextAnswer
    ensures { result ≡ (text_call s t.now find text.now).answer }
{
    or_refused(find_read(s, t, text))
}

fn find_read(s: Settings, t: &[u8], text: &[u8]) -> Result<TextAnswer, Refusal>
    ensures { or_refused result ≡ (text_call s t.now find text.now).answer }
{
    let g = s.layout()?;
    let key = admit(s, g, t, text)?;
    let place = key.place(s);
    let list = place.list;
    let answer = find_in(t, g, list, place.entry);
    Ok(TextAnswer { key, answer })
}

// What a call with a label does, once its key was sought.
trait Labelled {
    ghost verb: { ℕ → Verb };

    fn sought(
        t: &mut [u8],
        s: Settings,
        g: Layout,
        key: Key,
        v: Sought,
        label: u32,
    ) -> Result<Said, Refusal>
        requires { (open_of s (length t.old) key ≡ Ok g) × (v ≡ sought_of s t.old key) × (label < 2 ^ s.val) }
        ensures { Gives (key_call s t.old (verb label) key) result t.new };

    // it is refused for its label alone
    ghost due: { (s : Settings) (label : ℕ) → verb_due s (verb label) ≡ label_due s label ∷ [] };
}

// The key goes in.
struct Entering;

// A key that is there gets another label.
struct Relabelling;

impl Labelled for Entering {
    ghost verb = { enter };

    ghost due = { λ s label. refl };

    fn sought(
        t: &mut [u8],
        s: Settings,
        g: Layout,
        key: Key,
        v: Sought,
        label: u32,
    ) -> Result<Said, Refusal> {
        enter_sought(t, s, g, key, v, label)
    }
}

impl Labelled for Relabelling {
    ghost verb = { relabel };

    ghost due = { λ s label. refl };

    fn sought(
        t: &mut [u8],
        s: Settings,
        g: Layout,
        key: Key,
        v: Sought,
        label: u32,
    ) -> Result<Said, Refusal> {
        relabel_sought(t, s, g, key, v, label)
    }
}

// Enter of the address that the text spells.
pub fn enter_text(s: Settings, t: &mut [u8], text: &[u8], label: u64) -> TextAnswer
    ensures { Gives (text_call s t.old (enter label) text.now) result t.new }
{
    or_refused(labelled_read::<Entering>(s, t, text, label))
}

// Relabel of the address that the text spells.
pub fn relabel_text(s: Settings, t: &mut [u8], text: &[u8], label: u64) -> TextAnswer
    ensures { Gives (text_call s t.old (relabel label) text.now) result t.new }
{
    or_refused(labelled_read::<Relabelling>(s, t, text, label))
}

// Either of the two, with its label checked.
fn labelled_read<L: Labelled>(
    s: Settings,
    t: &mut [u8],
    text: &[u8],
    label: u64,
) -> Result<TextAnswer, Refusal>
    ensures { Gives (text_call s t.old (L.verb label) text.now) (or_refused result) t.new }
{
    let g = s.layout()?;
    let key = admit(s, g, t, text)?;
    if !fits(label, s.val) {
        let answer = Err(Refusal::Label);
        return Ok(TextAnswer { key, answer });
    }
    let place = key.place(s);
    let list = place.list;
    let found = find_in(t, g, list, place.entry);
    let v = Sought { place, found };
    let answer = L::sought(t, s, g, key, v, label as u32);
    Ok(TextAnswer { key, answer })
}

// Delete of the address that the text spells.
pub fn delete_text(s: Settings, t: &mut [u8], text: &[u8]) -> TextAnswer
    ensures { Gives (text_call s t.old delete text.now) result t.new }
{
    or_refused(delete_read(s, t, text))
}

fn delete_read(s: Settings, t: &mut [u8], text: &[u8]) -> Result<TextAnswer, Refusal>
    ensures { Gives (text_call s t.old delete text.now) (or_refused result) t.new }
{
    let g = s.layout()?;
    let key = admit(s, g, t, text)?;
    let place = key.place(s);
    let list = place.list;
    let found = find_in(t, g, list, place.entry);
    let v = Sought { place, found };
    let answer = delete_sought(t, s, g, key, v);
    Ok(TextAnswer { key, answer })
}
