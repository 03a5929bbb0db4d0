// What the calls on a table answer, if they are not refused.
use keys::Key;

// The five words.
#[derive(Clone, Copy)]
pub enum Word {
    Added,
    Held,
    Gone,
    None,
    Relabelled,
}

// What find, enter, relabel and delete say; slot is the number of the entry's slot, 0 with "none" and "gone", as C gets it. The word stands
// between two numbers, so that nobody copies both at once: such a load would wait until both have reached the cache.
#[derive(Clone, Copy)]
pub struct Said {
    pub label: u32,
    pub word: Word,
    pub compared: u32,
    pub slot: u64,
}

// What record and retrieve find.
#[derive(Clone, Copy)]
pub struct Record {
    pub key: Key,
    pub label: u32,
}
