// The table in lent bytes: what its calls answer. Blocks go by their numbers, as the bits hold them, since all memory is lent. The definitions stand in specs/; the code of each call in a crate of its own.
#![tactic(auto)]

mod answers;
mod damage;
mod slot;
mod step;

pub use answers::{Record, Said, Word};
pub use damage::Damage;
pub use slot::Slot;
pub use step::{Before, Step};
