// Where one member may be.

// Whether a member may be out of a group, and in it.
#[derive(Clone, Copy, PartialEq, Eq)]
pub struct May {
    pub out: bool,
    pub inn: bool,
}

impl May {
    // nothing is forbidden
    pub const FREE: May = May {
        out: true,
        inn: true,
    };
}
