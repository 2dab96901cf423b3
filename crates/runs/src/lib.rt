// Runs: where each group starts, for given sizes, for the arrangement of a sheet and for the sets that are shown with a verdict.
// `starts` goes through the groups once, in number order; `specs/Told` has the starts in document 01's words, `specs/Started` how far they are
// given. The sizes must be balanced; every run then lies within its parent's. Document 01, "The arrangement".
#![tactic(auto)]

pub mod starts;
