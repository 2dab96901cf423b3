// The four conversions over the edition: the refusals of the sheet, of its way to an edition and of the register's rows, or the converted
// bytes. `specs/ConversionReply` writes the operations down, `specs/Converted` says what a conversion keeps, `specs/Way` which sheets go to an
// edition. Document 02, card 6.
#![tactic(auto)]

ghost use Rattle.std.specs.Prelude.{◌≡◌, ◌≤◌, length};
ghost use Rattle.std.proofs.lemmas.List.Edits.{sets};
ghost use Rattle.wire.specs.Bytes.{le16};
ghost use Rattle.wire.specs.Capacity.{head_bytes, sheet_limit};
ghost use Rattle.wire.specs.Edition.{edition_of, edition2, edition_number};
ghost use Rattle.wire.specs.Encoding.{encode_register};
ghost use Rattle.wire.specs.RegisterFormat.{read_register};
ghost use Rattle.wire.specs.Conversion.{rows_in};
ghost use Rattle.replies.specs.Reply.{call, OnceRead, OnceBytes};
ghost use Rattle.replies.specs.Returned.{returned};
ghost use Rattle.conversion_reply.specs.ConversionReply.{SheetConversion, RegisterConversion};
ghost use Rattle.conversion_reply.specs.Way.{Way};

use conversion::rows_in::put_rows_in;
use conversion::towards::may_go;
use reading::load::load_sheet;
use reading::sheet_tables::Tables;
use records::record::Head;
use replies::room;
use rows::limits::row_bytes;
use rows::read::read_rows;
use wire::bytes::put_u16;
use wire::refusals::Fault;

// Where the edition stands in a head.
const HEAD_EDITION: usize = 4;

// the head of a sheet that goes to an edition
fn load_towards(sheet: &[u8], edition: u16) -> Result<Head, Fault>
    ensures { Way (edition_of edition) sheet.now result }
{
    let mut tables = Tables::new();
    let head = load_sheet(
        sheet,
        &mut tables.groups,
        &mut tables.names,
        &mut tables.labels,
        &mut tables.claims,
    )?;
    may_go(sheet, head, &tables.labels, edition)?;
    Ok(head)
}

// Bytes from the front of the buffer on, one by one: to have them copied the library would need a function from outside.
fn put_bytes(out: &mut [u8], bytes: &[u8])
    requires { length bytes.now ≤ length out.old }
    ensures { out.new ≡ sets out.old 0 bytes.now }
{
    let end = bytes.len();
    for i in 0..end {
        out[i] = bytes[i];
    }
}

// the bytes of a sheet with this edition in the head, into a buffer with room for them
fn give_edition(sheet: &[u8], edition: u16, reply: &mut [u8]) -> Result<u32, Fault>
    requires { (head_bytes ≤ length sheet.now) × (length sheet.now ≤ sheet_limit edition2) }
    ensures { OnceBytes (sets sheet.now 4 (le16 edition)) (call reply.old (returned result) reply.new) }
{
    let bytes = sheet.len();
    room(reply, bytes)?; // the sheet
    put_bytes(reply, sheet);
    put_u16(reply, HEAD_EDITION, edition);
    Ok(bytes as u32) // the sheet
}

// a register's rows as those of an edition, into a buffer with room for them
#[tactic(auto, using(rows::proofs::RowLaws::rows_there))]
fn give_rows(
    register: &[u8],
    from: u16,
    groups: u16,
    edition: u16,
    reply: &mut [u8],
) -> Result<u32, Fault>
    ensures { OnceRead (read_register (edition_of from) groups register.now) (call reply.old (returned result) reply.new)
        (λ rows. OnceBytes (encode_register (edition_of edition) (rows_in (edition_of edition) rows))
        (call reply.old (returned result) reply.new)) }
{
    let count = read_rows(register, from, groups)?;
    let bytes = row_bytes(edition) * count;
    room(reply, bytes)?; // the rows
    put_rows_in(reply, edition, register, from, count);
    Ok(bytes as u32) // the rows
}

// A sheet towards the edition with this number.
pub fn convert_sheet(sheet: &[u8], edition: u16, reply: &mut [u8]) -> Result<u32, Fault>
    requires { edition ≡ edition_number (edition_of edition) }
    ensures { SheetConversion (edition_of edition) sheet.now (call reply.old (returned result) reply.new) }
{
    load_towards(sheet, edition)?; // whether the sheet goes there
    give_edition(sheet, edition, reply)
}

// A register under its sheet towards the edition with this number.
pub fn convert_register(
    sheet: &[u8],
    register: &[u8],
    edition: u16,
    reply: &mut [u8],
) -> Result<u32, Fault>
    ensures { RegisterConversion (edition_of edition) sheet.now register.now
        (call reply.old (returned result) reply.new) }
{
    let head = load_towards(sheet, edition)?;
    give_rows(register, head.edition, head.groups, edition, reply)
}
