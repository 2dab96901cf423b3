// The check of a register: once its rows are read, the first broken rule, if any, and the count of each group.
// `check` scans groups, rules and members; `specs/Tallies` has what is gathered before the scan, `specs/Checked` the answer.
// Document 01, "Registers"; document 02, cards 2 and 3.
#![tactic(auto)]

pub mod check;
