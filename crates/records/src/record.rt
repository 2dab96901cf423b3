// The records of a sheet, and what reading one answers: a record with what it carries, or a refusal.
// A label stays in the bytes of the sheet, so no record holds an array.
use claim_records::claim::Claim;
use tables::groups::{Group, GroupNo};
use wire::refusals::Refusal;

// `edition` is the number of an edition
#[derive(Clone, Copy)]
pub struct Head {
    pub edition: u16,
    pub groups: u16,
    pub names: u16,
    pub claims: u16,
}

// what it means, None for the empty set, and how many bytes its label has
#[derive(Clone, Copy)]
pub struct Name {
    pub means: Option<GroupNo>,
    pub bytes: u16,
}

#[derive(Clone, Copy)]
pub enum Record {
    Head(Head),
    Group(Group),
    Name(Name),
    Claim(Claim),
}

pub type Answer = Result<Record, Refusal>;
