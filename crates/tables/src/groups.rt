// Groups, and the numbers that reach them.
ghost use Rattle.std.specs.Prelude.{◌≡◌, ◌≤◌, ◌-◌};
ghost use Rattle.wire.specs.Limits.{no_end};

use crate::modes::Mode;
pub use crate::table::Groups;

// A group's number and a name's number, each from 1 on, are two families.
#[derive(Clone, Copy, PartialEq, Eq)]
pub struct GroupNo(pub u16);

impl GroupNo {
    // where the group stands in a table that has one entry for each group
    pub fn index(self) -> usize
        requires { 1 ≤ self.0 }
        ensures { result ≡ self.0 - 1 }
    {
        self.0 as usize - 1
    }
}

// A group as its record has it. The root has no parent. No bound is above the number for no upper end, as its two bytes say.
#[derive(Clone, Copy)]
pub struct Group {
    pub parent: Option<GroupNo>,
    pub lo: u16,
    pub hi: u16,
    pub mode: Mode,
    ghost bounded: { (lo ≤ no_end) × (hi ≤ no_end) },
}

impl Group {
    // what a table has where no group was read
    pub const NONE: Group = Group {
        parent: None,
        lo: 0,
        hi: 0,
        mode: Mode(0),
    };
}
