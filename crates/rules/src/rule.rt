// The six rules of a register, in the order in which they are looked at, each with its number.
ghost use Rattle.std.specs.Prelude.{◌≡◌, ltb};
ghost use Rattle.meaning.specs.Rule.{rule_number};
ghost use Rattle.rules.specs.Meant.{rule_meant};

#[derive(Clone, Copy, PartialEq, Eq)]
pub enum Rule {
    Outside = 1,
    Lacking = 2,
    Uncovered = 3,
    Shared = 4,
    Below = 5,
    Above = 6,
}

impl Rule {
    pub const ALL: [Rule; 6] = [
        Rule::Outside,
        Rule::Lacking,
        Rule::Uncovered,
        Rule::Shared,
        Rule::Below,
        Rule::Above,
    ];

    // whether a member breaks it, and not a count
    pub fn is_of_members(self) -> bool
        ensures { result ≡ ltb (rule_number (rule_meant self)) 5 }
    {
        !matches!(self, Rule::Below | Rule::Above)
    }

    pub fn number(self) -> u16
        ensures { result ≡ rule_number (rule_meant self) }
    {
        self as u16
    }
}
