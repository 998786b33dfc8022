// The names of found items, in the order of versions.
ghost use Rattle.std.specs.Prelude.{◌≡◌};

use ext_text::Name;
use std::cmp::Ordering;
use std::marker::Model;

// The name of an item. Names are ordered as versions are. Contracts see it as its bytes.
#[derive(Drop)]
pub struct Stem {
    name: Name,
}

impl Model for Stem {
    ghost use Rattle.std.specs.Prelude.{ℕ, List};

    ghost Value = { List ℕ };

    ghost view = { λ s. s.name };
}

impl Stem {
    // The stem of this name.
    pub(crate) fn new(name: Name) -> Stem
        ensures { result ≡ name }
    {
        Stem { name }
    }

    // The name.
    pub(crate) fn into_name(self) -> Name
        ensures { result ≡ self }
    {
        self.name
    }
}

impl PartialEq for Stem {
    ghost use Rattle.std.specs.Prelude.{nat_eq};
    ghost use Rattle.std.specs.Cmp.{partial_equiv_from_equiv};
    ghost use Rattle.std.specs.Cmp.Lexicographic.{pointwise, nat_list_eq_equiv};

    ghost eq = { pointwise nat_eq };

    ghost laws = { partial_equiv_from_equiv nat_list_eq_equiv };

    fn eq(&self, other: &Stem) -> bool {
        self.name == other.name
    }
}

impl Eq for Stem {
    ghost use Rattle.std.specs.Cmp.Lexicographic.{nat_list_eq_equiv};

    ghost laws = { nat_list_eq_equiv };
}

impl PartialOrd for Stem {
    ghost use Rattle.std.specs.Prelude.{Some};
    ghost use Rattle.ext_vers.specs.Version.{order_of};
    ghost use Rattle.ext_vers.specs.Order.{orders_po};

    ghost partial_cmp = { λ a b. Some (order_of a b) };

    ghost laws = { orders_po };

    fn partial_cmp(&self, other: &Stem) -> Option<Ordering> {
        Some(self.cmp(other))
    }
}

impl Ord for Stem {
    ghost use Rattle.std.proofs.Common.{refl};
    ghost use Rattle.ext_vers.specs.Version.{order_of};
    ghost use Rattle.ext_vers.specs.Order.{orders_total, orders_ties};

    ghost cmp = { order_of };

    ghost total = { orders_total };

    ghost matches_partial_cmp = { λ a b. refl };

    ghost matches_eq = { orders_ties };

    fn cmp(&self, other: &Stem) -> Ordering {
        ext_vers::order(self.name.bytes(), other.name.bytes())
    }
}
