// Reading the address that a text begins with, such as a part of a log line.
#![tactic(auto)]

mod run;

use keys::Key;
pub use run::read;

// What reading the run that a text begins with finds: the key, and how many bytes were taken.
#[derive(Clone, Copy)]
pub struct Taken {
    pub key: Key,
    pub bytes: usize,
}
