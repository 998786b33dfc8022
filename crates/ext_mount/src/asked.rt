ghost use Rattle.std.specs.Prelude.{◌≡◌};
ghost use Rattle.ext_mount.specs.Asked.{time_of};

/// What is asked of a run: which tree the image shows, and the time that it tells.
#[derive(Clone, Copy, Debug, PartialEq, Eq)]
pub struct ImageAsk {
    /// The number of a mark's generation, or none: then the tree is that of the current generation.
    pub mark: Option<u32>,
    /// The time that is told of each entry, in seconds since 1970, or none: then it is 0.
    pub time: Option<u64>,
}

impl ImageAsk {
    /// The time that the image tells of each entry.
    pub fn time(&self) -> u64
        ensures { result ≡ time_of self.now }
    {
        match self.time {
            None => 0,
            Some(seconds) => seconds,
        }
    }
}
