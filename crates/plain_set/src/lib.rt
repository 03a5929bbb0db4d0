// The plain set of demand 3, and what a table's bytes have to do with it: definitions and theorems only.
#![tactic(auto)]
