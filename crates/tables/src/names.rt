// What a name means: a group, or the empty set. The table of names is reached by a name's number.
ghost use Rattle.std.specs.Prelude.{◌≡◌, ◌-◌, ◌≤◌, length, get_or, None};
ghost use Rattle.tables.specs.Names.{Means, meant_number};

use crate::groups::GroupNo;

#[derive(Clone, Copy, PartialEq, Eq)]
pub struct NameNo(pub u16);

// a group by the number in a record, where 0 stands for none: a name that means the empty set, a group without a parent
pub fn group_meant(number: u16) -> Option<GroupNo>
    ensures { Means number result }
{
    if number == 0 {
        None
    } else {
        Some(GroupNo(number))
    }
}

// the number that a record has for it
pub fn number_meant(group: Option<GroupNo>) -> u16
    ensures { result ≡ meant_number group }
{
    match group {
        None => 0,
        Some(g) => g.0,
    }
}

// what a name means, by the table of names
pub fn meant_by(names: &[Option<GroupNo>], name: NameNo) -> Option<GroupNo>
    requires { (1 ≤ name.0) × (name.0 ≤ length names.now) }
    ensures { result ≡ get_or names.now (name.0 - 1) None }
{
    names[name.0 as usize - 1]
}
