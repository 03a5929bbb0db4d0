// Enter: a key that is not held and its label, at the end of the key's list.
#![tactic(auto)]

mod append;
mod insert;

pub use insert::{enter, enter_sought};
