// Check: whether a table in lent bytes is sound.
#![tactic(auto)]

mod bytes;
mod call;
mod entries;
mod lists;
mod steps;
mod walk;

pub use call::check;
