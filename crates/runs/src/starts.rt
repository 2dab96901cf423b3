// The starts of all groups, in number order. `ends` has with each group where the last of its sons so far ended, where the
// group itself starts while it has none.
ghost use Rattle.std.specs.Prelude.{◌≡◌, ◌+◌, ◌-◌, ◌≤◌, ◌<◌};
ghost use Rattle.tables.specs.Modes.{disjoint_mode, cover_mode, same_mode};
ghost use Rattle.tables.specs.Numbers.{number_in};
ghost use Rattle.tables.specs.SheetIn.{sheet_in};
ghost use Rattle.runs.specs.Started.{start_by, Started};
ghost use Rattle.runs.specs.Told.{run_limit, Startable, Told};

use tables::groups::{GroupNo, Groups};
use tables::modes::Mode;

// The start of a son with `own` members under a group of this mode, start and size.
#[tactic(auto, unfolding(crate::specs::Started::start_by))]
fn start_under(mode: Mode, first: u32, ended: u32, size: u32, own: u32) -> u32
    requires { (own ≤ size) × (first + size ≤ run_limit) }
    ensures { result ≡ start_by (same_mode mode.0) (disjoint_mode mode.0) (cover_mode mode.0) first ended size own }
{
    if mode.is_same() {
        first
    } else if mode.is_disjoint() {
        ended
    } else if mode.is_cover() {
        ended.min(first + size - own)
    } else {
        first
    }
}

// group g, other than the root, gets its start
fn start_son(groups: &Groups, sizes: &[u32], firsts: &mut [u32], ends: &mut [u32], g: GroupNo)
    requires startable { Startable groups.now.table.now groups.now.size sizes.now firsts.old ends.old }
    requires le_g { (2 ≤ g.0) × (g.0 ≤ groups.now.size) }
    requires started { Started (sheet_in groups.now.table.now groups.now.size) (number_in sizes.now) (number_in firsts.old)
        (number_in ends.old) (g.0 - 1) }
    ensures { Started (sheet_in groups.now.table.now groups.now.size) (number_in sizes.now) (number_in firsts.new)
        (number_in ends.new) g.0 }
{
    let parent = groups.parent(g);
    let i = g.index();
    let j = parent.index();
    let first = start_under(
        groups.get(parent).mode,
        firsts[j],
        ends[j],
        sizes[j],
        sizes[i],
    );
    firsts[i] = first;
    ends[i] = first;
    ends[j] = first + sizes[i];
}

// The first member of each group in `firsts`; `ends` is written over.
pub fn start_runs(groups: &Groups, sizes: &[u32], firsts: &mut [u32], ends: &mut [u32])
    requires { Startable groups.now.table.now groups.now.size sizes.now firsts.old ends.old }
    ensures { Told (sheet_in groups.now.table.now groups.now.size) (number_in sizes.now) (number_in firsts.new) }
{
    firsts[0] = 1;
    ends[0] = 1;
    for i in 2..=groups.size {
        start_son(groups, sizes, firsts, ends, GroupNo(i));
    }
}
