// Ranges and the arrangement, from the intervals that measuring leaves: document 01, "Ranges" and "The arrangement".
// `pull` takes one son's part out of a total, `narrow` goes from the root down for the ranges (`specs/Table`), `arrange` (`specs/Sized`) for
// the arrangement.
#![tactic(auto)]

pub mod arrange;
pub mod narrow;
pub mod pull;
