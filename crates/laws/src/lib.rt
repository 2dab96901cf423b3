// Small laws that know nothing of the format: cases on tests and numbers, sums over the numbers below a bound, lists of first values,
// the binary digits of a word. Mathematics only, for every crate above: `specs/Sum` and `specs/Digit` have what counts and bits are made
// of, `specs/Tabulate` and `specs/Lowest` what lists of first values and the lowest digit are, `proofs/` the laws.
#![tactic(auto)]
