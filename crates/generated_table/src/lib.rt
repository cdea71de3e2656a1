// No function: the theorem of this crate is about the definitions of the generator and the table of round constants.
#![tactic(auto)]
