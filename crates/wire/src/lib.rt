// The wire format: bytes, records, field ranges and labels of sheets, rows of registers, lengths of replies.
// `specs/` is the format written down, which readers and writers cite; `proofs/RoundTrip..` show that it loses nothing. `bytes` (`specs/Bytes`,
// `specs/U64`) reads and stores fields, `edition` has what an edition sets. Document 01, "Records of a sheet", "Registers", "Replies" and
// "Turned back, in checking order"; document 02, cards 1, 2, 4 and 5.
#![tactic(auto)]

pub mod bytes;
pub mod edition;
pub mod refusals;
