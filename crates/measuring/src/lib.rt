// Measuring: the intervals of every group from the leaves up, with those of its later brothers joined, and whether some sets fit.
// `links` has the sons of a group as a chain, `measure` (`specs/Done`) the recursion over the tree, under flags (`specs/Tables`),
// into tables of intervals (`pairs`, `specs/Pairs`), `fitting` the question. Document 01, "Ranges" and refusal 8.
#![tactic(auto)]

pub mod fitting;
pub mod links;
pub mod measure;
pub mod pairs;
