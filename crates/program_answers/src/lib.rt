// The answer to a line of the program's input: what its command comes to, and the line that is written.
#![tactic(auto)]

mod answer;
mod outcome;
mod text;

pub use answer::{ANSWER_MAX, answer_line, refuse};
pub use outcome::{TABLE_BYTES, settings};
