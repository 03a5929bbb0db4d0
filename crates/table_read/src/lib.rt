// Reading a table: blocks, slots and lists, and slots' numbers.
#![tactic(auto)]

pub mod blocks;
pub mod lists;
pub mod numbers;
pub mod places;
pub mod slots;
pub mod windows;
