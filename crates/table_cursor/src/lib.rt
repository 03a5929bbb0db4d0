// A cursor over a table's records: all of them in their order, and no list walked twice.
#![tactic(auto)]

mod count;
mod places;
mod walk;

pub use count::survey;
pub use places::{Cursor, Next, Survey};
pub use walk::next;
