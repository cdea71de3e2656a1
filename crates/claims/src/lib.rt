// No function: the theorems of this crate are about the definitions of the others.
#![tactic(auto)]
