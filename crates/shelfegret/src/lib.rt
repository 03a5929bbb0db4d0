// The library for C: every call, exported. Structs go by value, a slice is a pointer and a length, and C has no enums that
// hold values, so one struct answers for all calls.
#![tactic(auto)]

mod answers;
mod calls;
mod texts;

use keys::Key;

// Code 0 and what the call tells, or the number of its refusal and zeros.
#[repr(C)]
#[derive(Clone, Copy)]
pub struct Answer {
    pub code: u32,
    pub word: u32,
    pub key: Key,
    pub label: u32,
    pub compared: u32,
    pub number: u64,
}
