// What a slot holds.
use keys::Key;

#[derive(Clone, Copy)]
pub struct Slot {
    pub entry: Key,
    pub label: u32,
}
