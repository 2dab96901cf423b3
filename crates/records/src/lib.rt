// The records of a sheet, one at a time: `record` has what they carry and what reading one answers, `read` reads the one at an offset.
// `specs/Answers` gives the number and values of each case, as the format of `wire` has them.
// Document 01, "Records of a sheet" and refusals 1 to 5.
#![tactic(auto)]

pub mod read;
pub mod record;
