// The tables that hold a sheet that was read: `table` has its groups, `groups` and `names` what reaches them, each its own family of numbers, `modes` tells
// the modes of a group, `limits` has the lengths. `specs/SheetIn` says which sheet a table stands for, `specs/Numbers` and `specs/RecordsIn` what tables of one
// number for each group and of offsets hold. Document 01, "Records of a sheet".
#![tactic(auto)]

pub mod groups;
pub mod limits;
pub mod modes;
pub mod names;
pub mod table;
