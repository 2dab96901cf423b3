// The arithmetic behind every answer: which numbers are the counts of sets that fit, as intervals computed from the leaves up and from
// the root down. Mathematics only: `specs/` has spans, the fold, choices and witnesses, which contracts cite, `proofs/` that they are exact.
// `spans`, `measuring`, `ranging`, `runs`, `choosing` and `questions` meet it in code. After `proofs/Possible` no sets are left, only numbers.
#![tactic(auto)]
