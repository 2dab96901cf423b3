// Reading a sheet: all of its records into lent tables, to an end or to a refusal (1 to 7).
// `sheet_tables` keep a sheet, `load` goes through groups, names and claims; `specs/Loaded` says what the tables then hold, as the format of
// `wire` reads it. Document 01, "Records of a sheet" and "Turned back, in checking order".
#![tactic(auto)]

pub mod load;
pub mod sheet_tables;
