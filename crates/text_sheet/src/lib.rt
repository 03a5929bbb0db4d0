// The Monday sheet: a table's records on pages of text.
#![tactic(auto)]

mod call;
mod row;
mod rows;

pub use call::page;
