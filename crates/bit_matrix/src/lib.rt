// Bit matrices of 64 words of 64 digits: the transpose, six exchanges of blocks for the whole matrix in place of 4,096 single digits.
// `transpose` has the exchange (`specs/Exchange`) and the six of them; what a transpose is stands in `specs/Matrix`.
// Nothing here knows of groups, members or rows: whoever has 64 words can use it.
#![tactic(auto)]

pub mod transpose;
