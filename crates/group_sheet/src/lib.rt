// The operations: ranges with an arrangement, the verdict on one claim, the check of a register, conversion between editions. The crate
// `group_sheet_c` exports them to C.
// Each reads the sheet and calls the crate that has its own part (of the conversions, `editions`, that crate reads it), and that says what its
// contract settles (`proofs/Settled`); what it answers, bytes written or a refusal, is packed into the number that the call returns.
// Document 01, "What it reads and gives" and "Replies"; document 02.
#![tactic(auto)]

pub mod claim;
pub mod editions;
pub mod ranges;
pub mod register;
