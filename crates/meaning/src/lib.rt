// What a sheet means: groups, finite sets of members, when sets fit a sheet, what a claim says of them or asks for, and which rule a
// register breaks. Definitions in `specs/`, laws of sons and readable sheets and the worked sheets in `proofs/`; no code runs from here.
// Source document 004, Definition 3; document 01, "Meaning", "The arrangement" and "Registers"; document 02, cards 1 to 4.
#![tactic(auto)]
