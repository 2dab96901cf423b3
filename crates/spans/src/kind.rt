// How the sons of a group are joined, by its mode.
ghost use Rattle.std.specs.Prelude.{◌≡◌};
ghost use Rattle.spans.specs.Held.{kind_held, mode_kind};

use tables::modes::Mode;

// How the sons of a group are joined: they may share members, share none, or are the same.
#[derive(Clone, Copy, PartialEq, Eq)]
pub enum Kind {
    Lap,
    Add,
    Eq,
}

impl Kind {
    // how the sons of a group of this mode are joined
    pub fn of(mode: Mode) -> Kind
        ensures { kind_held result ≡ mode_kind mode.0 }
    {
        if mode.is_same() {
            Kind::Eq
        } else if mode.is_disjoint() {
            Kind::Add
        } else {
            Kind::Lap
        }
    }
}
