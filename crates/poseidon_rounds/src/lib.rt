// No function: theorems about the rounds of any Poseidon permutation of width 24, and about the tables of its sparse form.
#![tactic(auto)]
