//! The law of samples, the contract of a function that does nothing: what holds of every depot of a sample, whoever made it.
ghost use Rattle.ext_sample.specs.Laws.{OneSampleDepot};

/// A sample of so many images has one depot: the same file at each path, and so the same trees.
pub fn one_sample_depot()
    ensures { OneSampleDepot }
{}
