// Questions about a sheet, over lists of groups (`specs/Groups`): `places` asks for a member in all groups of one list and in none of another
// (`specs/Places`), `lists` (`specs/Ways`) the questions of claims of kinds 5 to 7, `count` (`specs/Counts`) that of kind 4. A yes comes with
// numbers and marks that show it (`specs/Judged`, `specs/Witnessed`). Document 01, "Meaning"; document 02, card 1.
#![tactic(auto)]

pub mod count;
pub mod lists;
pub mod places;
