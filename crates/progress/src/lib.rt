// The place in a pattern: whether a call lies in its phase, and the place after it. All of it goes by the words,
// their number, the phase and the elements done in it alone.
#![tactic(auto)]

pub mod place;
