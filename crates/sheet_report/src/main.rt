// The program: a sheet from standard input, of which at most 16,384 bytes are taken, gives a line for each group and each
// claim, or the line of its refusal. A read or a write that fails ends it with that error.
// Document 01, "Worked sheets", the printed case; document 02, card 5 (how many bytes).
#![tactic(auto)]

ghost use Rattle.std.specs.Prelude.{◌≡◌, ◌≤◌, IfOk, length};
ghost use Rattle.sheet_report.specs.Given.{given};

use group_sheet::claim::sheet_claim;
use group_sheet::ranges::sheet_ranges;
use replies::pairs::PAIR;
use replies::{RANGE_BYTES, SHOWN_BYTES, VERDICT_BYTES};
use spans::span::NO_GREATEST;
use std::io::Read;
use std::{fmt, io};
use tables::limits::{CLAIMS, GROUP_CAPACITY};
use wire::bytes::u32_at;

// most bytes that are taken as a sheet
const SHEET_BYTES: usize = 16384;

// the longest replies: ranges, and a verdict with sets
const RANGES_BYTES: usize = RANGE_BYTES * GROUP_CAPACITY;

const SHOWN_SETS_BYTES: usize = VERDICT_BYTES + SHOWN_BYTES * GROUP_CAPACITY;

// A refusal as a call returns it, its number with a record number.
#[derive(Clone, Copy)]
struct Refused {
    number: u64,
    record: u64,
}

impl fmt::Display for Refused {
    fn fmt<W: fmt::Write>(&self, f: &mut fmt::Formatter<W>) -> fmt::Result {
        write!(f, "refused {} {}", self.number, self.record)
    }
}

// what a call gave: how many bytes it wrote, or its refusal
fn given(returned: u64) -> Result<u64, Refused>
    ensures { given result ≡ returned }
{
    let number = returned / PAIR;
    let second = returned % PAIR;
    if number == 0 {
        Ok(second)
    } else {
        Err(Refused {
            number,
            record: second,
        })
    }
}

// A greatest count, a hyphen where there is none.
#[derive(Clone, Copy)]
struct Greatest(u32);

impl fmt::Display for Greatest {
    fn fmt<W: fmt::Write>(&self, f: &mut fmt::Formatter<W>) -> fmt::Result {
        if self.0 == NO_GREATEST {
            write!(f, "-")
        } else {
            write!(f, "{}", self.0)
        }
    }
}

// a line for each record of the ranges
fn print_groups(rt: &impl Print, ranges: &[u8]) -> io::Result<()> {
    for (i, record) in ranges.chunks_exact(RANGE_BYTES).enumerate() {
        let least = u32_at(record, 4);
        let greatest = Greatest(u32_at(record, 8));
        let first = u32_at(record, 12);
        let count = u32_at(record, 16);
        println!(rt; "{} {least} {greatest} {first} {count}", i + 1)?;
    }
    Ok(())
}

// a line for each claim, up to the first number that has none
fn print_claims(rt: &impl Print, sheet: &[u8]) -> io::Result<()> {
    for claim in 1..=CLAIMS as u32 {
        let mut reply = [0u8; SHOWN_SETS_BYTES];
        let returned = sheet_claim(sheet, claim, &mut reply);
        let Ok(_) = given(returned) else {
            break;
        };
        let verdict = if reply[4] == 1 { "holds" } else { "denied" };
        println!(rt; "claim {claim} {verdict}")?;
    }
    Ok(())
}

fn report(rt: &impl Print, sheet: &[u8]) -> io::Result<()> {
    let mut reply = [0u8; RANGES_BYTES];
    let returned = sheet_ranges(sheet, &mut reply);
    match given(returned) {
        Err(refused) => println!(rt; "{refused}"),
        Ok(bytes) => {
            let written = reply.len().min(bytes as usize);
            print_groups(rt, &reply[..written])?;
            print_claims(rt, sheet)
        }
    }
}

// Reads until the sheet's room is full or the input ends, and answers how many bytes it took.
fn take_sheet(from: &mut impl Read, sheet: &mut [u8]) -> io::Result<usize>
    ensures { IfOk result (λ n. n ≤ length sheet.new) }
{
    let mut taken = 0;
    while taken < sheet.len() {
        let n = from.read(&mut sheet[taken..])?;
        if n == 0 {
            break;
        }
        taken += n;
    }
    Ok(taken)
}

fn main(rt: HostRuntime) -> io::Result<()> {
    let mut sheet = [0u8; SHEET_BYTES];
    let n = take_sheet(&mut rt.stdin(), &mut sheet)?;
    report(&rt, &sheet[..n])
}
