// Intervals: `span` has one, in two numbers, `pair` those of a group for a member out of it and in it, `kind` how sons are joined, `may` which of
// the two states a member may have. `specs/Held` says which spans of `sizes` the numbers are; each function is an equation with the one of the same
// meaning there. Document 01, "Ranges".
#![tactic(auto)]

pub mod kind;
pub mod may;
pub mod pair;
pub mod span;
