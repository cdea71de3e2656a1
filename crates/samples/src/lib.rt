// No function: the samples B1 to B10, as one computed test.
#![tactic(auto)]
