// The sons of every group, listed once: `lists` has the table and reads a group's list off it, `gather` fills it.
// `specs/SonLists` says what is listed, `specs/SonSteps` what each pass over the groups leaves.
// Document 02, card 3.
#![tactic(auto)]

pub mod gather;
pub mod lists;
