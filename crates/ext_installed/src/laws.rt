//! Laws of installed versions, each the contract of a function that does nothing.
ghost use Rattle.ext_installed.specs.Laws.{OneInstalled};

/// A tree has one list of the instances of some transfers, with one list of the versions of which each transfer has one.
pub fn one_installed<C>()
    ensures { OneInstalled C }
{}
