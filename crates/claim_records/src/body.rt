// What a claim's record holds after its kind, tested in order, its length, its fields, its names; and the claim that it carries.
ghost use Rattle.std.specs.Prelude.{◌≡◌, ◌+◌, ◌*◌, ◌≤◌, length, drop, ◌&&◌, leb, eqb};
ghost use Rattle.wire.specs.Bytes.{u16_at};
ghost use Rattle.wire.specs.Limits.{list_limit};
ghost use Rattle.wire.specs.Record.{refusal};
ghost use Rattle.wire.specs.Refusals.{number_met};
ghost use Rattle.wire.specs.SheetFormat.{all_within, u16s, last_claim};
ghost use Rattle.claim_records.specs.Body.{Whole, claim_body, ClaimTaken};

use crate::claim::{Claim, Count, ListKind, Lists};
use tables::limits::{BOUND, LIST};
use tables::names::NameNo;
use wire::bytes;
use wire::refusals::Refusal;

// whether the n numbers at an offset are all from 1 to `names`
fn names_allowed(s: &[u8], at: usize, n: u16, names: u16) -> bool
    requires { at + 2 * n ≤ length s.now }
    ensures { result ≡ all_within names (u16s s.now at n) }
{
    for i in 0..n as usize {
        let name = bytes::u16_at(s, at + 2 * i);
        if name < 1 || names < name {
            return false;
        }
    }
    true
}

fn check_count(s: &[u8], at: usize, len: u16, names: u16) -> Result<(), Refusal>
    requires { Whole s.now at len × (u16_at s.now (at + 2) ≡ 4) }
    ensures { number_met result ≡ refusal (claim_body names (drop at s.now)) }
{
    if len != 8 {
        return Err(Refusal::WrongLength);
    }
    if BOUND < bytes::u16_at(s, at + 6) {
        return Err(Refusal::FieldRange);
    }
    if !names_allowed(s, at + 4, 1, names) {
        return Err(Refusal::BadReference);
    }
    Ok(())
}

fn lists_allowed(m: u16, n: u16, len: u16) -> bool
    ensures { result ≡ (leb 1 m && leb m list_limit && leb 1 n && leb n list_limit && eqb (6 + 2 * (m + n)) len) }
{
    1 <= m && m <= LIST && 1 <= n && n <= LIST && 6 + 2 * (m + n) == len
}

fn check_lists(s: &[u8], at: usize, len: u16, names: u16) -> Result<(), Refusal>
    requires { Whole s.now at len × (5 ≤ u16_at s.now (at + 2)) }
    ensures { number_met result ≡ refusal (claim_body names (drop at s.now)) }
{
    if len % 2 != 0 || len < 10 || 6 + 2 * (LIST + LIST) < len {
        return Err(Refusal::WrongLength);
    }
    let m = bytes::u16_at(s, at + 4);
    let n = bytes::u16_at(s, at + 6);
    if !lists_allowed(m, n, len) {
        return Err(Refusal::FieldRange);
    }
    if !names_allowed(s, at + 8, m, names) || !names_allowed(s, at + 8 + 2 * m as usize, n, names) {
        return Err(Refusal::BadReference);
    }
    Ok(())
}

// the first of these tests that fails
pub fn check_body(s: &[u8], at: usize, len: u16, kind: u16, names: u16) -> Result<(), Refusal>
    requires { Whole s.now at len × ((4 ≤ kind) × (u16_at s.now (at + 2) ≡ kind)) }
    ensures { number_met result ≡ refusal (claim_body names (drop at s.now)) }
{
    if kind == 4 {
        check_count(s, at, len, names)
    } else {
        check_lists(s, at, len, names)
    }
}

// the claim of this kind whose record stands at an offset
pub fn take_claim(s: &[u8], at: usize, kind: u16) -> Claim
    requires { (at + 10 ≤ length s.now) × ((4 ≤ kind) × ((kind ≤ last_claim) × (u16_at s.now (at + 2) ≡ kind))) }
    ensures { ClaimTaken s.now at result }
{
    let a = bytes::u16_at(s, at + 4);
    let b = bytes::u16_at(s, at + 6);
    if kind == 4 {
        Claim::Count(Count {
            name: NameNo(a),
            lo: b,
            hi: bytes::u16_at(s, at + 8),
        })
    } else {
        Claim::Lists(Lists {
            kind: ListKind::of_number(kind),
            m: a,
            n: b,
            at: at + 8,
        })
    }
}
