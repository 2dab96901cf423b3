// The sons of each group as a chain, from the last one to the first.
ghost use Rattle.std.specs.Prelude.{◌≡◌, ◌≤◌, ◌<◌, length, replicate, None};
ghost use Rattle.wire.specs.Capacity.{group_capacity};
ghost use Rattle.tables.specs.SheetIn.{sheet_in};
ghost use Rattle.measuring.specs.Links.{link_in, Linked, Chained};

use tables::groups::{GroupNo, Groups};
use tables::limits::GROUP_CAPACITY;

// The last son of each group, and the brother before each group, in tables that are lent.
#[derive(Clone, Copy)]
pub struct Links<'a> {
    pub last: &'a [Option<GroupNo>],
    pub prev: &'a [Option<GroupNo>],
}

impl<'a> Links<'a> {
    // tables to lend, in which no group has a son: the last sons, and the brothers before
    pub fn new() -> (
        [Option<GroupNo>; GROUP_CAPACITY],
        [Option<GroupNo>; GROUP_CAPACITY],
    )
        ensures { (result.0 ≡ replicate group_capacity None) × (result.1 ≡ replicate group_capacity None) }
    {
        ([None; GROUP_CAPACITY], [None; GROUP_CAPACITY])
    }

    // the last son of a group
    pub fn last(&self, g: GroupNo) -> Option<GroupNo>
        requires { (1 ≤ g.0) × (g.0 ≤ length self.now.last.now) }
        ensures { result ≡ link_in self.now.last.now g.0 }
    {
        self.last[g.index()]
    }

    // the son before another one
    pub fn before(&self, g: GroupNo) -> Option<GroupNo>
        requires { (1 ≤ g.0) × (g.0 ≤ length self.now.prev.now) }
        ensures { result ≡ link_in self.now.prev.now g.0 }
    {
        self.prev[g.index()]
    }
}

// Links the sons of all groups.
pub fn link_sons(groups: &Groups, last: &mut [Option<GroupNo>], prev: &mut [Option<GroupNo>])
    requires { (groups.now.size ≤ length last.old) × (groups.now.size ≤ length prev.old) }
    ensures { let s = sheet_in groups.now.table.now groups.now.size in Chained s last.new prev.new s.size }
{
    last[0] = None;
    prev[0] = None;
    for n in 2..=groups.size {
        let son = GroupNo(n);
        link(last, prev, son, groups.parent(son));
    }
}

// Group g, without sons so far, becomes the last son of its parent.
fn link(last: &mut [Option<GroupNo>], prev: &mut [Option<GroupNo>], g: GroupNo, parent: GroupNo)
    requires { (1 ≤ parent.0) × (parent.0 < g.0) × (g.0 ≤ length last.old) × (g.0 ≤ length prev.old) }
    ensures { Linked last.old prev.old g.0 parent.0 last.new prev.new }
{
    last[g.index()] = None;
    prev[g.index()] = last[parent.index()];
    last[parent.index()] = Some(g);
}

#[cfg(test)]
mod tests {
    use super::*;

    #[test]
    fn no_group_has_a_son(rt: HostRuntime) {
        let (last, prev) = Links::new();
        assert!(rt; last.iter().all(|son| son.is_none()));
        assert!(rt; prev.iter().all(|brother| brother.is_none()));
    }
}
