// From names to groups. The numbers of a claim's names stand in the sheet's bytes; the table of names has what each means.
ghost use Rattle.std.specs.Prelude.{◌≡◌, ◌≤◌, length, take};
ghost use Rattle.wire.specs.SheetFormat.{u16s};
ghost use Rattle.questions.specs.Groups.{groups_among, numbers_of};
ghost use Rattle.claims.specs.Named.{meanings, NamesAt};

use tables::groups::GroupNo;
use tables::names::{NameNo, meant_by};
use wire::bytes::u16_at;

// The groups that the n names at an offset of the sheet mean, in the first entries of a list. How many they are.
pub fn groups_meant(
    sheet: &[u8],
    from: usize,
    n: u16,
    names: &[Option<GroupNo>],
    list: &mut [GroupNo],
) -> usize
    requires { NamesAt sheet.now from n names.now × (n ≤ length list.old) }
    ensures upper_bound { result ≤ n }
    ensures list_after { numbers_of (take result list.new) ≡ groups_among (meanings names.now (u16s sheet.now from n)) }
    ensures value { result ≡ length (groups_among (meanings names.now (u16s sheet.now from n))) }
{
    let mut k = 0;
    for i in 0..n as usize {
        let name = NameNo(u16_at(sheet, from + 2 * i));
        if let Some(g) = meant_by(names, name) {
            list[k] = g;
            k += 1;
        }
    }
    k
}
