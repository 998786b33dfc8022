//! Laws of the orders, each the contract of a function that does nothing.
ghost use Rattle.std.specs.Prelude.{◌≡◌, ℕ, List};
ghost use Rattle.std.specs.Cmp.{IsTotalOrder};
ghost use Rattle.std.specs.declared.cmp.Ordering.{Ordering};
ghost use Rattle.std.specs.declared.cmp.Ordering.TheVariants.{Equal};
ghost use Rattle.ext_vers.specs.Version.{order_of, version_cmp};

/// `compare` orders: reversed arguments give the reversed order, what is below is below what is above, and equals compare
/// alike with every third.
pub fn compare_is_a_total_preorder()
    ensures { IsTotalOrder version_cmp }
{}

/// `order` orders, and only a text itself equals it.
pub fn order_is_a_total_order()
    ensures total { IsTotalOrder order_of }
    ensures exact { (a b : List ℕ) → order_of a b ≡ Ordering.Equal → a ≡ b }
{}
