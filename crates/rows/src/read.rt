// All rows of a register, read to an end or to a refusal (10 to 13, 15).
ghost use Rattle.std.specs.Prelude.{◌≡◌};
ghost use Rattle.wire.specs.Edition.{edition_of};
ghost use Rattle.wire.specs.RegisterFormat.{read_register};
ghost use Rattle.rows.specs.RowsRead.{rows_give};

use crate::decode::bit_above;
use crate::limits::{ROW_TOO_MANY, ROWS};
use crate::reader::RowReader;
use wire::refusals::{Fault, Refusal};

// The number of rows, each tested before the next is read, under a sheet of this edition and so many groups.
pub fn read_rows(register: &[u8], edition: u16, groups: u16) -> Result<usize, Fault>
    ensures { rows_give (edition_of edition) register.now result ≡ read_register (edition_of edition) groups register.now }
{
    let mut reader = RowReader::new(register, edition);
    for row in 0..ROWS {
        let number = row as u32 + 1;
        match reader.next() {
            Ok(Some(found)) => {
                if bit_above(register, edition, found.bits, groups) {
                    return Err(Refusal::BitAbove.at(number));
                }
            }
            Ok(None) => return Ok(row),
            Err(refusal) => return Err(refusal.at(number)),
        }
    }
    if reader.at < register.len() {
        return Err(Refusal::TooManyRows.at(ROW_TOO_MANY));
    }
    Ok(ROWS)
}
