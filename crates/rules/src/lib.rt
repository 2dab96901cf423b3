// The six rules of a register (`rule`, `specs/Meant`), asked of columns and counts: `joins` (`specs/Joins`) puts the columns of a group's
// sons together, `tests` (`specs/RuleTests`, `specs/Asked`) tells whether a rule can be broken at a group, and which members, or whether its
// count, break it. Document 01, "Registers"; document 02, card 3.
#![tactic(auto)]

pub mod joins;
pub mod rule;
pub mod tests;
