// Where a cursor stands, and what is found there.
use keys::{Key, ListNumber};
use table::Step;
use table_read::slots::Slots;

// A place in list `list`: in its slots `run`, of which the first `passed` are behind it. `behind` is the step from the run's
// block to the next.
#[derive(Clone, Copy)]
pub struct Cursor {
    pub list: ListNumber,
    pub passed: usize,
    pub run: Slots,
    pub behind: Step,
}

// A record's place and label, and the cursor behind it.
#[derive(Clone, Copy)]
pub struct Next {
    pub list: ListNumber,
    pub entry: Key,
    pub label: u32,
    pub cursor: Cursor,
}

// How many records a table has, and the cursor before one of them.
#[derive(Clone, Copy)]
pub struct Survey {
    pub count: u64,
    pub cursor: Cursor,
}
