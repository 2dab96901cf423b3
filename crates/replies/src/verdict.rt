// A verdict, with its number in document 01.
ghost use Rattle.std.specs.Prelude.{◌≡◌};
ghost use Rattle.replies.specs.Verdict.{verdict_number};

#[derive(Clone, Copy, PartialEq, Eq)]
pub enum Verdict {
    Holds = 1,
    Denied = 0,
}

impl Verdict {
    pub fn number(self) -> u16
        ensures { result ≡ verdict_number self }
    {
        self as u16
    }
}
