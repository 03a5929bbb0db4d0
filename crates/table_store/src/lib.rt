// Stores into a table: the free start, a counter, a link, a slot, zeros.
#![tactic(auto)]

mod fields;
mod places;
mod slots;
mod zeros;

pub use fields::{
    empty_block, put_basic_counter, put_basic_front, put_free_start, put_overflow_counter,
    put_overflow_front, put_overflow_link,
};
pub use places::store_at_place;
pub use slots::{copy, get_slot, put_slot, store_over_displaced};
pub use table::Slot;
pub use zeros::{clear, clear_and_put};
