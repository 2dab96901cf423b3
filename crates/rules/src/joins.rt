// The columns of a group's sons put together: who is in some son, and who is in two.
ghost use Rattle.std.specs.Prelude.{◌≤◌, length};
ghost use Rattle.wire.specs.Capacity.{group_capacity};
ghost use Rattle.columns.specs.ColumnSteps.{Cleared};
ghost use Rattle.columns.specs.Columns.{column_words};
ghost use Rattle.sons.specs.SonLists.{kept_sons};
ghost use Rattle.rules.specs.Asked.{Joinable};
ghost use Rattle.rules.specs.Joins.{ColumnJoined, Joined};

use columns::limits::COLUMN_WORDS;
use columns::table::Columns;
use sons::lists::Sons;
use tables::groups::GroupNo;

// A bit for each member, 64 members a word: who is in some son of a group, and who is in two, lent to who reads them.
#[derive(Clone, Copy)]
pub struct SonColumns<'a> {
    pub some: &'a [u64],
    pub two: &'a [u64],
}

impl<'a> SonColumns<'a> {
    // nobody: a table to lend as `some` or as `two`
    pub const NONE: [u64; COLUMN_WORDS] = [0; COLUMN_WORDS];
}

// nobody is in some son, nor in two
fn clear(words: usize, some: &mut [u64], two: &mut [u64])
    requires { (words ≤ length some.old) × (words ≤ length two.old) }
    ensures { Cleared words some.new × Cleared words two.new }
{
    some[..words].fill(0);
    two[..words].fill(0);
}

// the column of one son more
fn join(columns: &Columns, son: GroupNo, words: usize, some: &mut [u64], two: &mut [u64])
    requires { (son.0 ≤ group_capacity) × (words ≤ column_words) × (words ≤ length some.old) × (words ≤ length two.old) }
    ensures { ColumnJoined columns.now.words.now son.0 words some.old two.old some.new two.new }
{
    for w in 0..words {
        let column = columns.word(son, w);
        two[w] |= some[w] & column;
        some[w] |= column;
    }
}

// The columns of all sons of a group, read off its list: the son outside, the words inside.
pub fn join_sons(
    columns: &Columns,
    words: usize,
    sons: &Sons,
    g: GroupNo,
    some: &mut [u64],
    two: &mut [u64],
)
    requires { Joinable words sons.now.starts.now sons.now.order.now g.0 some.old two.old }
    ensures { Joined (kept_sons sons.now.starts.now sons.now.order.now g.0) columns.now.words.now words some.new two.new }
{
    let listed = sons.of(g);
    clear(words, some, two);
    for son in listed {
        join(columns, *son, words, some, two);
    }
}

#[cfg(test)]
mod tests {
    use super::*;

    #[test]
    fn none_is_nobody(rt: HostRuntime) {
        let some = SonColumns::NONE;
        assert!(rt; some.iter().all(|word| *word == 0));
    }
}
