// Labels, which stand in the bytes of a sheet: `allowed` tests their bytes, `same` compares two, `used` finds a name's and tells whether one
// was used before. `specs/WholeName` is where a name's record stands, `specs/LabelHash` the hash that saves comparisons.
// Document 01, "Records of a sheet" (kind 3) and refusal 6; document 02, card 5.
#![tactic(auto)]

pub mod allowed;
pub mod same;
pub mod used;
