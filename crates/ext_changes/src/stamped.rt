ghost use Rattle.std.specs.Prelude.{◌≡◌};
ghost use Rattle.ext_tree.specs.declared.stamp.Stamp.{Stamp};

use ext_host::Held;
use ext_tree::Stamp;

/// Contents of files whose stamps are known.
pub trait Stamped {
    /// The stamp of the file's bytes.
    ghost stamp: { Self → Stamp };

    /// The stamp of the file's bytes.
    fn stamp(&self) -> &Stamp
        ensures { result.now ≡ Self.stamp self.now };
}

impl Stamped for Stamp {
    ghost stamp = { λ stamp. stamp };

    fn stamp(&self) -> &Stamp {
        self
    }
}

impl Stamped for Held {
    ghost stamp = { λ held. held.stamp };

    fn stamp(&self) -> &Stamp {
        Held::stamp(self)
    }
}
