// The groups of a sheet, kept in a table and reached by a group's number.
ghost use Rattle.std.specs.Prelude.{◌≡◌, ◌≤◌, ◌<◌, ◌-◌, get_or};
ghost use Rattle.meaning.specs.Sheet.{Son};
ghost use Rattle.tables.specs.Entry.{no_group};
ghost use Rattle.tables.specs.SheetIn.{sheet_in, Tabled};

use crate::groups::{Group, GroupNo};

// The groups of a readable sheet: a tree with group 1 as its root, in the first entries of a table that is lent.
#[derive(Clone, Copy)]
pub struct Groups<'a> {
    pub table: &'a [Group],
    pub size: u16,
    ghost tabled: { Tabled table.now size },
}

impl<'a> Groups<'a> {
    pub fn get(&self, g: GroupNo) -> Group
        requires { (1 ≤ g.0) × (g.0 ≤ self.now.size) }
        ensures { result ≡ get_or self.now.table.now (g.0 - 1) no_group }
    {
        self.table[g.index()]
    }

    // the parent of a group other than the root
    pub fn parent(&self, g: GroupNo) -> GroupNo
        requires { (2 ≤ g.0) × (g.0 ≤ self.now.size) }
        ensures { Son (sheet_in self.now.table.now self.now.size) result.0 g.0 × (1 ≤ result.0) × (result.0 < g.0) }
    {
        match self.get(g).parent {
            Some(parent) => parent,
            None => unreachable!(),
        }
    }
}
