ghost use Rattle.std.specs.Prelude.{◌≡◌, ◌↔◌, IsTrue};
ghost use Rattle.ext_attributes.specs.Attributes.{is_plain, of_mode};

use crate::owner::Owner;
use ext_text::Mode;

/// What a directory has beside its path.
#[derive(Clone, Copy)]
pub struct Attributes {
    /// The permission bits.
    pub mode: Mode,
    /// Whose it is.
    pub owner: Owner,
}

impl Attributes {
    /// Those of root's with this mode.
    pub fn of_mode(mode: Mode) -> Attributes
        ensures { result ≡ of_mode mode }
    {
        Attributes {
            mode,
            owner: Owner::root(),
        }
    }

    /// Whether they are a mode alone.
    pub fn is_plain(&self) -> bool
        ensures { result ≡ is_plain self.now }
    {
        self.owner.is_root()
    }

    /// Whether the modes and the owners are equal.
    pub fn equals(&self, other: &Attributes) -> bool
        ensures { IsTrue result ↔ (self.now ≡ other.now) }
    {
        self.mode.bits() == other.mode.bits() && self.owner.equals(other.owner)
    }
}
