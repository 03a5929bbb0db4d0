// Delete: a key out of its list.
#![tactic(auto)]

mod remove;
mod shrink;

pub use remove::{delete, delete_sought};
