// The program is the plain set of demand 3, stated and proved: theorems only.
#![tactic(auto)]
