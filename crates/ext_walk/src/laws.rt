//! Laws of walks, each the contract of a function that does nothing: what holds of every walk through every tree.
ghost use Rattle.ext_walk.specs.Walk.{EndsAtNoLink, OneEnd};

/// A walk ends at the root, or at the path of an entry that is no link and no whiteout.
pub fn ends_at_no_link<C>()
    ensures { EndsAtNoLink C }
{}

/// A walk has one end.
pub fn one_end<C>()
    ensures { OneEnd C }
{}
