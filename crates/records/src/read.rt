// The records of a sheet, one at a time: the record that stands at an offset, or the refusal that it meets.
ghost use Rattle.std.specs.Prelude.{◌+◌, ◌≤◌, length, ◌≡◌, ◌&&◌, leb, eqb, List};
ghost use Rattle.wire.specs.Edition.{edition_number, edition_of, group_limit};
ghost use Rattle.wire.specs.Limits.{name_limit, claim_limit};
ghost use Rattle.wire.specs.SheetFormat.{head_tests, head_of, parent_allowed, GroupRecord, group_tests, group_of};
ghost use Rattle.tables.specs.Names.{meant_number, Numbered};
ghost use Rattle.records.specs.Answers.{FrameAt, head, AnswerOf, group, NameAnswer, ClaimAnswer};

use crate::record::{Answer, Head, Name, Record};
use claim_records::body::{check_body, take_claim};
use labels::allowed::label_allowed;
use labels::used::label_of;
use tables::groups::{Group, GroupNo};
use tables::limits::{BOUND, CLAIMS, LAST_CLAIM, MODE, NAMES};
use tables::modes::Mode;
use tables::names::group_meant;
use wire::bytes::u16_at;
use wire::edition::{group_limit, is_edition, label_limit};
use wire::refusals::Refusal;

// the length of the record at an offset, whose kind is to be from `first` to `last`
fn frame(s: &[u8], at: usize, first: u16, last: u16) -> Result<u16, Refusal>
    requires { at ≤ length s.now }
    ensures { FrameAt s.now at first last result }
{
    let left = s.len() - at;
    if left < 4 {
        return Err(Refusal::Cut);
    }
    let len = u16_at(s, at);
    if len < 2 || left - 2 < len as usize {
        return Err(Refusal::Cut);
    }
    let kind = u16_at(s, at + 2);
    if kind < first || last < kind {
        return Err(Refusal::WrongKind);
    }
    Ok(len)
}

fn head_allowed(head: Head) -> bool
    ensures { result ≡ (eqb head.edition (edition_number (edition_of head.edition)) && leb 1 head.groups
        && leb head.groups (group_limit (edition_of head.edition)) && leb head.names name_limit && leb head.claims claim_limit) }
{
    is_edition(head.edition)
        && 1 <= head.groups
        && head.groups <= group_limit(head.edition)
        && head.names <= NAMES
        && head.claims <= CLAIMS
}

pub fn read_head(s: &[u8], at: usize) -> Answer
    requires { at ≤ length s.now }
    ensures { AnswerOf head_tests (λ b. head (head_of b)) s.now at result }
{
    let len = frame(s, at, 1, 1)?;
    if len != 10 {
        return Err(Refusal::WrongLength);
    }
    let head = Head {
        edition: u16_at(s, at + 4),
        groups: u16_at(s, at + 6),
        names: u16_at(s, at + 8),
        claims: u16_at(s, at + 10),
    };
    if !head_allowed(head) {
        return Err(Refusal::FieldRange);
    }
    Ok(Record::Head(head))
}

#[tactic(auto, using(std::proofs::lemmas::Bool::Decides::nat_tests), unfolding(wire::specs::SheetFormat::parent_allowed))]
fn parent_allowed(number: GroupNo, parent: Option<GroupNo>) -> bool
    requires { Numbered parent }
    ensures { result ≡ parent_allowed number.0 (meant_number parent) }
{
    match parent {
        None => number.0 == 1,
        Some(parent) => parent.0 < number.0,
    }
}

pub fn read_group(s: &[u8], at: usize, number: GroupNo) -> Answer
    requires { at ≤ length s.now }
    ensures { (gs : List GroupRecord) → length gs + 1 ≡ number.0 →
        AnswerOf (group_tests gs) (λ b. group (group_of b)) s.now at result }
{
    let len = frame(s, at, 2, 2)?;
    if len != 10 {
        return Err(Refusal::WrongLength);
    }
    let parent = group_meant(u16_at(s, at + 4));
    let lo = u16_at(s, at + 6);
    let hi = u16_at(s, at + 8);
    let mode = u16_at(s, at + 10);
    if BOUND < lo || MODE < mode {
        return Err(Refusal::FieldRange);
    }
    if !parent_allowed(number, parent) {
        return Err(Refusal::BadReference);
    }
    Ok(Record::Group(Group {
        parent,
        lo,
        hi,
        mode: Mode(mode),
    }))
}

// The tests of a name but for the use of its label before, which the caller knows.
pub fn read_name(s: &[u8], at: usize, edition: u16, groups: u16) -> Answer
    requires { at ≤ length s.now }
    ensures { NameAnswer (edition_of edition) groups s.now at result }
{
    let len = frame(s, at, 3, 3)?;
    if len < 5 || label_limit(edition) < len - 4 {
        return Err(Refusal::WrongLength);
    }
    if !label_allowed(label_of(s, at)) {
        return Err(Refusal::FieldRange);
    }
    let group = u16_at(s, at + 4);
    if groups < group {
        return Err(Refusal::BadReference);
    }
    Ok(Record::Name(Name {
        means: group_meant(group),
        bytes: len - 4,
    }))
}

pub fn read_claim(s: &[u8], at: usize, names: u16) -> Answer
    requires { at ≤ length s.now }
    ensures { ClaimAnswer names s.now at result }
{
    let len = frame(s, at, 4, LAST_CLAIM)?;
    let kind = u16_at(s, at + 2);
    check_body(s, at, len, kind, names)?;
    Ok(Record::Claim(take_claim(s, at, kind)))
}
