// Reading IPv6 text: every legal spelling.
#![tactic(auto)]

mod class;
mod groups;
mod reader;

pub use reader::read;
