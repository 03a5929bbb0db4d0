// Demand 3, stated and proved: theorems only.
#![tactic(auto)]
