// The check of a register: the lowest broken group with its first broken rule, once all rows are read.
ghost use Rattle.std.specs.Prelude.{◌≡◌, ◌*◌, ◌≤◌, ◌+◌, ◌<◌, length, Ok};
ghost use Rattle.wire.specs.Edition.{edition_of};
ghost use Rattle.wire.specs.RegisterFormat.{read_register};
ghost use Rattle.tables.specs.Groups.{mode_in, group_numbers};
ghost use Rattle.tables.specs.SheetIn.{sheet_in};
ghost use Rattle.columns.specs.Columns.{column_sets};
ghost use Rattle.rows.specs.RowsRead.{rows_give};
ghost use Rattle.sons.specs.SonLists.{kept_sons, SonsListed};
ghost use Rattle.sons.specs.SonSteps.{several_sons};
ghost use Rattle.rules.specs.Asked.{Joinable};
ghost use Rattle.rules.specs.Joins.{JoinedFor};
ghost use Rattle.registers.specs.Checked.{AnswerTo, Checked, Tallied};
ghost use Rattle.registers.specs.Tallies.{Gathered};

use columns::counts::count_groups;
use columns::limits::{BLOCK_WORDS, COLUMN_WORDS, COLUMNS};
use columns::table::{Columns, blocks_for};
use rows::read::read_rows;
use rules::joins::{SonColumns, join_sons};
use rules::rule::Rule;
use rules::tests::{asks_sons, block_breaks, count_breaks, may_break};
use sons::gather::gather_sons;
use sons::lists::{SON_STARTS, SONS, Sons};
use tables::groups::{GroupNo, Groups};
use tiles::fill::fill_columns;
use wire::refusals::Fault;

// A group with the first rule that it breaks.
#[derive(Clone, Copy, PartialEq, Eq)]
pub struct Broken {
    pub group: GroupNo,
    pub rule: Rule,
}

// the columns of a group's sons, where rule 3 or rule 4 asks for them
fn join_asked(
    groups: &Groups,
    columns: &Columns,
    words: usize,
    sons: &Sons,
    g: GroupNo,
    some: &mut [u64],
    two: &mut [u64],
)
    requires { (1 ≤ g.0) × (g.0 ≤ groups.now.size) × Joinable words sons.now.starts.now sons.now.order.now g.0 some.old two.old }
    ensures { JoinedFor (mode_in groups.now.table.now g.0) (several_sons sons.now.starts.now g.0)
        (kept_sons sons.now.starts.now sons.now.order.now g.0) columns.now.words.now words some.new two.new }
{
    if asks_sons(groups.get(g).mode, sons.several(g)) {
        join_sons(columns, words, sons, g, some, two);
    }
}

// The scan over groups, rules and members, a block of members at a time, left at the first broken rule.
fn scan(
    groups: &Groups,
    columns: &Columns,
    members: usize,
    sons: &Sons,
    counts: &[u32],
) -> Option<Broken>
    requires { Gathered groups.now.table.now groups.now.size columns.now.words.now members sons.now.starts.now sons.now.order.now counts.now }
    ensures { AnswerTo (sheet_in groups.now.table.now groups.now.size) (column_sets columns.now.words.now members) (Ok result) }
{
    let mut some = [0; COLUMN_WORDS];
    let mut two = [0; COLUMN_WORDS];
    let blocks = blocks_for(members);
    let words = BLOCK_WORDS * blocks;
    let mut broken = None;
    'scan: for g in 1..=groups.size {
        let group = GroupNo(g);
        // column 0, which is nobody's, stands in for a parent where there is none
        let parent = groups.get(group).parent.unwrap_or(GroupNo(0));
        join_asked(groups, columns, words, sons, group, &mut some, &mut two);
        let joined = SonColumns {
            some: &some,
            two: &two,
        };
        for rule in Rule::ALL {
            let number = rule.number();
            if rule.is_of_members() {
                if may_break(&groups.table, sons, group, parent, number) {
                    for b in 0..blocks {
                        if block_breaks(number, columns, &joined, b, group, parent) {
                            broken = Some(Broken { group, rule });
                            break 'scan;
                        }
                    }
                }
            } else if count_breaks(&groups.table, counts, group, number) {
                broken = Some(Broken { group, rule });
                break 'scan;
            }
        }
    }
    broken
}

// The rows of a register that was read. The columns are a function's first local: made behind a test, so large a table is cleared twice.
fn check_rows(
    groups: &Groups,
    edition: u16,
    register: &[u8],
    rows: usize,
    sons: &Sons,
    counts: &mut [u32],
) -> Option<Broken>
    requires read { rows_give (edition_of edition) register.now (Ok rows) ≡ read_register (edition_of edition) groups.now.size register.now }
    requires listed { SonsListed (sheet_in groups.now.table.now groups.now.size) sons.now.starts.now sons.now.order.now }
    requires room { group_numbers ≤ length counts.old }
    ensures checked { Checked (sheet_in groups.now.table.now groups.now.size)
        (read_register (edition_of edition) groups.now.size register.now) (Ok result) }
    ensures tallied { Tallied (sheet_in groups.now.table.now groups.now.size)
        (read_register (edition_of edition) groups.now.size register.now) counts.old counts.new }
{
    let mut words = [0; COLUMNS];
    let members = fill_columns(register, edition, groups.size, rows, &mut words);
    let columns = Columns { words: &words };
    let used = BLOCK_WORDS * blocks_for(members);
    count_groups(&columns, groups.size, used, counts);
    scan(groups, &columns, members, sons, counts)
}

// The sons are gathered before the first row is read, and all rows are read before any rule is looked at. Of a register that is
// read the count of each group is left in the table.
pub fn check_register(
    groups: &Groups,
    edition: u16,
    register: &[u8],
    counts: &mut [u32],
) -> Result<Option<Broken>, Fault>
    requires { group_numbers ≤ length counts.old }
    ensures checked { Checked (sheet_in groups.now.table.now groups.now.size)
        (read_register (edition_of edition) groups.now.size register.now) result }
    ensures tallied { Tallied (sheet_in groups.now.table.now groups.now.size)
        (read_register (edition_of edition) groups.now.size register.now) counts.old counts.new }
{
    let mut starts = [0; SON_STARTS];
    let mut order = [GroupNo(0); SONS];
    gather_sons(groups, &mut starts, &mut order);
    let sons = Sons {
        starts: &starts,
        order: &order,
    };
    let rows = read_rows(register, edition, groups.size)?;
    Ok(check_rows(groups, edition, register, rows, &sons, counts))
}
