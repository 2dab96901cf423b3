// A sheet into lent tables: its groups, names and claims one after another, to the end or to the first refusal.
ghost use Rattle.std.specs.Prelude.{◌≡◌, ◌+◌, ◌≤◌, length, drop};
ghost use Rattle.wire.specs.Capacity.{group_capacity};
ghost use Rattle.wire.specs.Edition.{edition_of};
ghost use Rattle.wire.specs.Limits.{name_limit, claim_limit};
ghost use Rattle.wire.specs.SheetFormat.{group_of, group_tests, read_groups, read_sheet};
ghost use Rattle.tables.specs.Groups.{groups_in};
ghost use Rattle.records.specs.Answers.{head_record};
ghost use Rattle.reading.specs.Loaded.{Goes, NamesGo, ClaimsGo, Capacity, HeadLimits, HeadLoads, Numbered, Loads, LoadsTree};

use claim_records::claim::Claim;
use labels::used::{LABEL_HASHES, label_of, used_label};
use records::read::{read_claim, read_group, read_head, read_name};
use records::record::{Answer, Head, Record};
use tables::groups::{Group, GroupNo};
use tables::limits::{CLAIM_TABLE, NAME_TABLE};
use wire::refusals::{Fault, Refusal};

// the answer on the record of this number, as one on the sheet
fn numbered(answer: Answer, number: u32) -> Result<Record, Fault>
    ensures { Numbered answer number result }
{
    answer.map_err(|refusal| refusal.at(number))
}

// the offset after the groups
fn load_groups(s: &[u8], from: usize, count: u16, groups: &mut [Group]) -> Result<usize, Fault>
    requires { (from ≤ length s.now) × ((count ≤ group_capacity) × (group_capacity ≤ length groups.old)) }
    ensures { Goes group_tests group_of s.now from count 2 result (groups_in groups.new count) }
{
    let mut at = from;
    for i in 0..count {
        let record = numbered(read_group(s, at, GroupNo(i + 1)), 2 + i as u32)?;
        let Record::Group(group) = record else {
            unreachable!();
        };
        groups[i as usize] = group;
        at += 12;
    }
    Ok(at)
}

// the offset after the names
fn load_names(
    s: &[u8],
    from: usize,
    head: Head,
    names: &mut [Option<GroupNo>],
    labels: &mut [usize],
) -> Result<usize, Fault>
    requires { (from ≤ length s.now) × ((head.names ≤ name_limit) × ((name_limit ≤ length names.old) × (name_limit ≤ length labels.old))) }
    ensures { NamesGo (edition_of head.edition) head.groups s.now from head.names result names.new labels.new }
{
    let mut seen = [false; LABEL_HASHES];
    let mut at = from;
    for i in 0..head.names {
        let number = 2 + head.groups as u32 + i as u32;
        let record = numbered(read_name(s, at, head.edition, head.groups), number)?;
        let Record::Name(name) = record else {
            unreachable!();
        };
        let k = i as usize;
        if used_label(s, &labels[..k], label_of(s, at), &mut seen) {
            return Err(Refusal::LabelTwice.at(number));
        }
        names[k] = name.means;
        labels[k] = at;
        at += 6 + name.bytes as usize;
    }
    Ok(at)
}

// the offset after the claims, the first of which is the record numbered `first`
fn load_claims(
    s: &[u8],
    from: usize,
    head: Head,
    first: u32,
    claims: &mut [Claim],
) -> Result<usize, Fault>
    requires { (from ≤ length s.now) × ((head.claims ≤ claim_limit) × ((first ≤ 2 + group_capacity + name_limit)
        × (claim_limit ≤ length claims.old))) }
    ensures { ClaimsGo head.names first s.now from head.claims result claims.new }
{
    let mut at = from;
    for i in 0..head.claims {
        let record = numbered(read_claim(s, at, head.names), first + i as u32)?;
        let Record::Claim(claim) = record else {
            unreachable!();
        };
        claims[i as usize] = claim;
        at += claim.bytes();
    }
    Ok(at)
}

// the records after the head
fn load_records(
    s: &[u8],
    head: Head,
    groups: &mut [Group],
    names: &mut [Option<GroupNo>],
    labels: &mut [usize],
    claims: &mut [Claim],
) -> Result<Head, Fault>
    requires { (12 ≤ length s.now) × (HeadLimits (head_record head) × Capacity groups.old names.old labels.old claims.old) }
    ensures { Loads result (read_groups (head_record head) (drop 12 s.now)) s.now
        (record { groups = groups.new; names = names.new; labels = labels.new; claims = claims.new }) }
{
    let at_names = load_groups(s, 12, head.groups, groups)?;
    let at_claims = load_names(s, at_names, head, names, labels)?;
    let first = 2 + head.groups as u32 + head.names as u32;
    let end = load_claims(s, at_claims, head, first, claims)?;
    if end < s.len() {
        return Err(Refusal::Trailing.at(first + head.claims as u32));
    }
    Ok(head)
}

fn load_head(sheet: &[u8]) -> Result<Head, Fault>
    ensures { HeadLoads result sheet.now }
{
    let record = numbered(read_head(sheet, 0), 1)?;
    let Record::Head(head) = record else {
        unreachable!();
    };
    Ok(head)
}

pub fn load_sheet(
    sheet: &[u8],
    groups: &mut [Group],
    names: &mut [Option<GroupNo>],
    labels: &mut [usize],
    claims: &mut [Claim],
) -> Result<Head, Fault>
    requires { Capacity groups.old names.old labels.old claims.old }
    ensures { Loads result (read_sheet sheet.now) sheet.now
        (record { groups = groups.new; names = names.new; labels = labels.new; claims = claims.new }) }
{
    let head = load_head(sheet)?;
    load_records(sheet, head, groups, names, labels, claims)
}

// for operations that need the groups only: names and claims are read, and not kept
pub fn load_tree(sheet: &[u8], groups: &mut [Group]) -> Result<Head, Fault>
    requires { group_capacity ≤ length groups.old }
    ensures { LoadsTree result (read_sheet sheet.now) sheet.now groups.new }
{
    let head = load_head(sheet)?;
    let mut names = [None; NAME_TABLE];
    let mut labels = [0; NAME_TABLE];
    let mut claims = [Claim::NONE; CLAIM_TABLE];
    load_records(sheet, head, groups, &mut names, &mut labels, &mut claims)
}
