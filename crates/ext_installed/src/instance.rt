// What is found in the targets of transfers.
use ext_text::{ListOf, Path};
use ext_vers::Version;
use ext_versions::Versions;

/// An entry in the target of a transfer that is a resource of a version.
#[derive(Drop)]
pub struct Instance {
    /// The place of the transfer in the list of the transfers, from 0 on.
    pub transfer: usize,
    /// The version that the target's patterns read in the entry's name.
    pub version: Version,
    /// The path of the entry.
    pub path: Path,
}

/// The instances of some transfers.
#[derive(Drop)]
pub struct Instances {
    /// How many transfers there are.
    pub transfers: usize,
    /// The instances in the order of their transfers, and those of one transfer in the order of their paths.
    pub items: ListOf<Instance>,
    /// The versions of which each transfer has an instance.
    pub versions: Versions,
}
