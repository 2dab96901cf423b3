// Choosing: numbers for all groups of a sheet and marks for one more member, where there are any.
// `parts` (`specs/Parted`) divides a number between a group's sons, `divide` (`specs/Divided`) gives every group its number and
// mark, `choose` (`specs/Chosen`) answers one question about a sheet under flags. Document 01, "Meaning"; document 02, card 1.
#![tactic(auto)]

pub mod choose;
pub mod divide;
pub mod parts;
