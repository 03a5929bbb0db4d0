// Demand 1, what calls leave in lent bytes: theorems only.
#![tactic(auto)]
