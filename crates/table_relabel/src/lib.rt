// Relabel: another label for a key that is held.
#![tactic(auto)]

mod call;
mod label;

pub use call::{relabel, relabel_sought};
