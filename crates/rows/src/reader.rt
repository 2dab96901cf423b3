// The reader that walks the rows: the lent register, the number of its sheet's edition, the offset reached, and the key of the
// member before it, 0 at first.
ghost use Rattle.std.specs.Prelude.{◌≡◌};
ghost use Rattle.wire.specs.Edition.{edition_of};
ghost use Rattle.wire.specs.MemberKey.{key_member};
ghost use Rattle.rows.specs.RowsRead.{row_gives, front_at, Moved};

use crate::decode::{RowFound, row_at};
use wire::refusals::Refusal;

#[derive(Drop)]
pub struct RowReader<'a> {
    pub bytes: &'a [u8],
    pub edition: u16,
    pub at: usize,
    pub last: u64,
}

impl<'a> RowReader<'a> {
    // before the first row
    pub fn new(bytes: &'a [u8], edition: u16) -> RowReader<'a>
        ensures { (result.bytes.now ≡ bytes.now) × (result.edition ≡ edition) × (result.at ≡ 0) × (result.last ≡ 0) }
    {
        RowReader {
            bytes,
            edition,
            at: 0,
            last: 0,
        }
    }

    // The row at the offset reached, none at the end; the reader goes on behind it.
    pub fn next(&mut self) -> Result<Option<RowFound>, Refusal>
        ensures row { row_gives result ≡ front_at (edition_of self.old.edition) self.old.bytes.now self.old.at (key_member self.old.last) }
        ensures over { (self.new.bytes.now ≡ self.old.bytes.now) × (self.new.edition ≡ self.old.edition) }
        ensures moved { Moved result self.old.at self.old.last self.new.at self.new.last }
    {
        let found = row_at(self.bytes, self.edition, self.at, self.last)?;
        if let Some(row) = found {
            self.at = row.next;
            self.last = row.key;
        }
        Ok(found)
    }
}
