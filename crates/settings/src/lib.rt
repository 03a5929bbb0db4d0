// What every call on a table starts from: the settings and their rules, the layout of the table's bits, and the numbers
// of the refusals.
#![tactic(auto)]

mod layout;
mod log;
mod refusal;
mod settings;

pub use layout::{Blocks, Layout};
pub use refusal::Refusal;
pub use settings::Settings;
