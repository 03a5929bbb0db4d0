// Laws of Bools, lists and numbers that no crate has to itself: theory alone, no code.
#![tactic(auto)]
