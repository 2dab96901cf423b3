// The modes of a group. Document 01, "Records of a sheet": "Mode is a sum of 1 (disjoint), 2 (cover), 4 (same)".
ghost use Rattle.std.specs.Prelude.{◌≡◌};
ghost use Rattle.tables.specs.Modes.{disjoint_mode, cover_mode, same_mode};

// a sum as a record has it
#[derive(Clone, Copy, PartialEq, Eq)]
pub struct Mode(pub u16);

impl Mode {
    pub fn is_disjoint(self) -> bool
        ensures { result ≡ disjoint_mode self.0 }
    {
        self.0 % 2 == 1
    }

    pub fn is_cover(self) -> bool
        ensures { result ≡ cover_mode self.0 }
    {
        self.0 / 2 % 2 == 1
    }

    pub fn is_same(self) -> bool
        ensures { result ≡ same_mode self.0 }
    {
        self.0 / 4 % 2 == 1
    }
}
