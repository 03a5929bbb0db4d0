// Examples, proved in one list: see specs/Starred.antt. There is no code here.
#![tactic(auto)]
