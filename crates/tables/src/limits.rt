// The limits of a sheet that hold in every edition, and the lengths of the tables that hold any sheet.
ghost use Rattle.std.specs.Prelude.{◌*◌};

// The length of a table that is reached by group numbers, 0 for none.
pub const GROUP_NUMBERS: usize = GROUP_CAPACITY + 1;

// The limits of the format that hold in every edition: most names and claims of a sheet, most names in one list of a claim, the
// greatest lo and the greatest mode.
pub const NAMES: u16 = 128;

pub const CLAIMS: u16 = 64;

pub const LIST: u16 = 8;

pub const BOUND: u16 = 65534;

pub const MODE: u16 = 7;

// The bound that stands for no upper end.
pub const NO_END: u16 = 65535;

// The groups that tables hold, in every edition: a table of one number for each group has this length.
pub const GROUP_CAPACITY: usize = 256;

// The lengths of the tables of names and claims that hold any sheet.
pub const NAME_TABLE: usize = NAMES as usize;

pub const CLAIM_TABLE: usize = CLAIMS as usize;

// the last kind of a claim
pub const LAST_CLAIM: u16 = 7;
