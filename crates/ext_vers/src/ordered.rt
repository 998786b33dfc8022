ghost use Rattle.std.specs.Prelude.{◌≡◌, IfOk};

use crate::comparing::order;
use ext_text::{OutOfMemory, Text};
use std::cmp::Ordering;
use std::marker::Model;

/// A text that stands where versions do: its order is that of versions, equal ones by their bytes, so that versions are
/// sorted, searched for and kept as keys. Any text may be one. [`is_version`](crate::is_version) says which are
/// versions. Contracts see it as its bytes.
#[derive(Drop)]
pub struct Version {
    text: Text,
}

impl Model for Version {
    ghost use Rattle.std.specs.Prelude.{ℕ, List};

    ghost Value = { List ℕ };

    ghost view = { λ v. v.text };
}

impl Version {
    /// The version of this text, which is not copied.
    pub fn new(text: Text) -> Version
        ensures { result ≡ text }
    {
        Version { text }
    }

    /// Its bytes.
    pub fn bytes(&self) -> &[u8]
        ensures { result.now ≡ self.now }
    {
        self.text.bytes()
    }

    /// The text, which is not copied.
    pub fn into_text(self) -> Text
        ensures { result ≡ self }
    {
        self.text
    }

    /// An equal version.
    ///
    /// # Errors
    /// `OutOfMemory` alone.
    pub fn copy(&self) -> Result<Version, OutOfMemory>
        ensures { IfOk result (λ copy. copy ≡ self.now) }
    {
        let text = self.text.copy()?;
        Ok(Version { text })
    }
}

impl PartialEq for Version {
    ghost use Rattle.std.specs.Prelude.{nat_eq};
    ghost use Rattle.std.specs.Cmp.{partial_equiv_from_equiv};
    ghost use Rattle.std.specs.Cmp.Lexicographic.{pointwise, nat_list_eq_equiv};

    ghost eq = { pointwise nat_eq };

    ghost laws = { partial_equiv_from_equiv nat_list_eq_equiv };

    fn eq(&self, other: &Version) -> bool {
        self.text == other.text
    }
}

impl Eq for Version {
    ghost use Rattle.std.specs.Cmp.Lexicographic.{nat_list_eq_equiv};

    ghost laws = { nat_list_eq_equiv };
}

impl PartialOrd for Version {
    ghost use Rattle.std.specs.Prelude.{Some};
    ghost use Rattle.ext_vers.specs.Order.{orders_po};
    ghost use Rattle.ext_vers.specs.Version.{order_of};

    ghost partial_cmp = { λ a b. Some (order_of a b) };

    ghost laws = { orders_po };

    fn partial_cmp(&self, other: &Version) -> Option<Ordering> {
        Some(self.cmp(other))
    }
}

impl Ord for Version {
    ghost use Rattle.std.proofs.Common.{refl};
    ghost use Rattle.ext_vers.specs.Order.{orders_total, orders_ties};
    ghost use Rattle.ext_vers.specs.Version.{order_of};

    ghost cmp = { order_of };

    ghost total = { orders_total };

    ghost matches_partial_cmp = { λ a b. refl };

    ghost matches_eq = { orders_ties };

    fn cmp(&self, other: &Version) -> Ordering {
        order(self.bytes(), other.bytes())
    }
}
