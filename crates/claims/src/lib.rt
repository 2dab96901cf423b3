// Claims: whether a claim holds, and sets that fit and break it (kinds 4 to 6), or have the member that it asks for (kind 7).
// `names` (`specs/Named`) turns the names of a claim into groups, `decide` (`specs/Decided`) gives the verdict and the sets to show,
// `decision` has what that is. Document 01, "Meaning" and "The arrangement" (denials); document 02, card 1.
#![tactic(auto)]

pub mod decide;
pub mod decision;
pub mod names;
