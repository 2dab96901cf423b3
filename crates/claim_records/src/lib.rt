// Claims: `claim` has what a claim is and its kinds, `body` the tests of its record after the kind and the claim that it carries.
// `specs/ClaimHeld` says what a claim stands for, `specs/ClaimTable` what the table of claims holds, `specs/Body` what is tested.
// Document 01, "Records of a sheet" (claims); document 02, card 1.
#![tactic(auto)]

pub mod body;
pub mod claim;
