// Writing IPv6 text: one spelling of each address.
#![tactic(auto)]

mod four;
mod mapped;
mod writer;

pub use writer::{put_text, write};
