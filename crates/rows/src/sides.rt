// The sides of a recipient, as a row numbers them.
ghost use Rattle.std.specs.Prelude.{◌≡◌};
ghost use Rattle.wire.specs.Member.{side_number};
ghost use Rattle.rows.specs.Sides.{side_meant, SideMet};

#[derive(Clone, Copy, PartialEq, Eq)]
pub enum Side {
    Left = 1,
    Right = 2,
}

impl Side {
    // the side with a number, where one has it
    pub fn from_number(number: u16) -> Option<Side>
        ensures { SideMet number result }
    {
        match number {
            1 => Some(Side::Left),
            2 => Some(Side::Right),
            _ => None,
        }
    }

    pub fn number(self) -> u16
        ensures { result ≡ side_number (side_meant self) }
    {
        self as u16
    }
}
