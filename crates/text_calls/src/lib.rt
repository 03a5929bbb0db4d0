// IPv6 text on a table: the calls with texts. Reading and writing are crates of their own.
#![tactic(auto)]

mod calls;

pub use calls::{TextAnswer, delete_text, enter_text, find_text, relabel_text};
