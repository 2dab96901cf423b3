// Conversion between the editions: whether a sheet may go to an edition (`towards`, `specs/TowardsIn`), and a register's rows written as
// those of an edition (`rows_in`). What either means stands in `wire` (`towards`, `row_in`).
// Document 02, card 6.
#![tactic(auto)]

pub mod rows_in;
pub mod towards;
