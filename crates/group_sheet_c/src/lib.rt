// The operations of `group_sheet`, exported to C: the static library behind include/group_sheet.h. Each export calls the function of its
// name there, and states that function's clause.
#![tactic(auto)]

ghost use Rattle.wire.specs.Edition.{edition1, edition2};
ghost use Rattle.replies.specs.Reply.{call};
ghost use Rattle.range_reply.specs.RangesReply.{RangesCall};
ghost use Rattle.claim_reply.specs.ClaimReply.{ClaimCall};
ghost use Rattle.register_reply.specs.RegisterReply.{RegisterCall};
ghost use Rattle.conversion_reply.specs.ConversionReply.{SheetConversion, RegisterConversion};

#[unsafe(no_mangle)]
pub extern "C" fn sheet_ranges(sheet: &[u8], reply: &mut [u8]) -> u64
    ensures { RangesCall sheet.now (call reply.old result reply.new) }
{
    group_sheet::ranges::sheet_ranges(sheet, reply)
}

#[unsafe(no_mangle)]
pub extern "C" fn sheet_claim(sheet: &[u8], claim: u32, reply: &mut [u8]) -> u64
    ensures { ClaimCall sheet.now claim (call reply.old result reply.new) }
{
    group_sheet::claim::sheet_claim(sheet, claim, reply)
}

#[unsafe(no_mangle)]
pub extern "C" fn sheet_register(sheet: &[u8], register: &[u8], reply: &mut [u8]) -> u64
    ensures { RegisterCall sheet.now register.now (call reply.old result reply.new) }
{
    group_sheet::register::sheet_register(sheet, register, reply)
}

#[unsafe(no_mangle)]
pub extern "C" fn sheet_to_edition1(sheet: &[u8], reply: &mut [u8]) -> u64
    ensures { SheetConversion edition1 sheet.now (call reply.old result reply.new) }
{
    group_sheet::editions::sheet_to_edition1(sheet, reply)
}

#[unsafe(no_mangle)]
pub extern "C" fn sheet_to_edition2(sheet: &[u8], reply: &mut [u8]) -> u64
    ensures { SheetConversion edition2 sheet.now (call reply.old result reply.new) }
{
    group_sheet::editions::sheet_to_edition2(sheet, reply)
}

#[unsafe(no_mangle)]
pub extern "C" fn sheet_register_to_edition1(sheet: &[u8], register: &[u8], reply: &mut [u8]) -> u64
    ensures { RegisterConversion edition1 sheet.now register.now (call reply.old result reply.new) }
{
    group_sheet::editions::sheet_register_to_edition1(sheet, register, reply)
}

#[unsafe(no_mangle)]
pub extern "C" fn sheet_register_to_edition2(sheet: &[u8], register: &[u8], reply: &mut [u8]) -> u64
    ensures { RegisterConversion edition2 sheet.now register.now (call reply.old result reply.new) }
{
    group_sheet::editions::sheet_register_to_edition2(sheet, register, reply)
}
