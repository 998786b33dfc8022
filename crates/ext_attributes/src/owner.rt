ghost use Rattle.std.specs.Prelude.{◌≡◌, ◌↔◌, IsTrue};
ghost use Rattle.ext_attributes.specs.Attributes.{is_root_owner, root_owner};

/// Whose an entry is.
#[derive(Clone, Copy, Debug, PartialEq, Eq)]
pub struct Owner {
    /// The number of the user.
    pub user: u32,
    /// The number of the group.
    pub group: u32,
}

impl Owner {
    /// User 0 and group 0.
    pub fn root() -> Owner
        ensures { result ≡ root_owner }
    {
        Owner { user: 0, group: 0 }
    }

    /// Whether it is user 0 and group 0.
    pub fn is_root(self) -> bool
        ensures { result ≡ is_root_owner self }
    {
        self.user == 0 && self.group == 0
    }

    /// Whether both numbers are equal.
    pub fn equals(self, other: Owner) -> bool
        ensures { IsTrue result ↔ (self ≡ other) }
    {
        self == other
    }
}
