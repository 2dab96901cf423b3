// One question about a sheet: whether there are numbers for all groups and marks for one more member, in the groups that its
// flags allow. The answer comes with them.
ghost use Rattle.std.specs.Prelude.{◌≤◌, length};
ghost use Rattle.tables.specs.SheetIn.{sheet_in};
ghost use Rattle.measuring.specs.Tables.{may_in};
ghost use Rattle.choosing.specs.Chosen.{Chose, Asking};

use crate::divide::divide;
use measuring::measure::measure_sheet;
use spans::may::May;
use spans::pair::Pair;
use tables::groups::{GroupNo, Groups};
use tables::limits::GROUP_CAPACITY;

// `c`: whether the member is in the root.
pub fn choose(groups: &Groups, flags: &[May], c: bool, sizes: &mut [u32], marks: &mut [u8]) -> bool
    requires { Asking groups.now.size sizes.old marks.old × (groups.now.size ≤ length flags.now) }
    ensures { Chose (sheet_in groups.now.table.now groups.now.size) (may_in flags.now) c sizes.new marks.new result }
{
    let mut spans = [Pair::ZERO; GROUP_CAPACITY];
    let mut after = [Pair::ZERO; GROUP_CAPACITY];
    measure_sheet(groups, flags, &mut spans, &mut after);
    let root = spans[GroupNo(1).index()].at(c);
    if root.is_empty() {
        return false;
    }
    divide(groups, &spans, &after, root.least, c, sizes, marks);
    true
}
