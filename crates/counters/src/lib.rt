// What a sponge counts, by the place in a pattern that it has come to: permutations, and the two positions.
// All of it goes by the words, the phase and the elements done in it alone.
#![tactic(auto)]

pub mod permutations;
pub mod positions;
