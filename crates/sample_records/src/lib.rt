// No function: the records that START gives to the patterns of samples B4 to B7.
#![tactic(auto)]
