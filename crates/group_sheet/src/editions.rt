// A sheet, and a register under its sheet, towards each edition.
ghost use Rattle.wire.specs.Edition.{edition1, edition2};
ghost use Rattle.replies.specs.Reply.{call};
ghost use Rattle.conversion_reply.specs.ConversionReply.{SheetConversion, RegisterConversion};

use conversion_reply::{convert_register, convert_sheet};
use replies::pairs::pack;
use wire::edition::{EDITION_1, EDITION_2};

pub fn sheet_to_edition1(sheet: &[u8], reply: &mut [u8]) -> u64
    ensures { SheetConversion edition1 sheet.now (call reply.old result reply.new) }
{
    pack(convert_sheet(sheet, EDITION_1, reply))
}

pub fn sheet_to_edition2(sheet: &[u8], reply: &mut [u8]) -> u64
    ensures { SheetConversion edition2 sheet.now (call reply.old result reply.new) }
{
    pack(convert_sheet(sheet, EDITION_2, reply))
}

pub fn sheet_register_to_edition1(sheet: &[u8], register: &[u8], reply: &mut [u8]) -> u64
    ensures { RegisterConversion edition1 sheet.now register.now (call reply.old result reply.new) }
{
    pack(convert_register(sheet, register, EDITION_1, reply))
}

pub fn sheet_register_to_edition2(sheet: &[u8], register: &[u8], reply: &mut [u8]) -> u64
    ensures { RegisterConversion edition2 sheet.now register.now (call reply.old result reply.new) }
{
    pack(convert_register(sheet, register, EDITION_2, reply))
}
