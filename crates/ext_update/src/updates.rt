use ext_available::Offers;
use ext_installed::Instances;
use ext_text::ListOf;
use ext_transfer::Transfer;
use ext_versions::Versions;

/// What the updates of a component are about.
#[derive(Drop)]
pub struct Updates {
    /// The transfers that are on, in byte order of the names of their files.
    pub transfers: ListOf<Transfer>,
    /// What the source of each offers.
    pub offers: ListOf<Offers>,
    /// The versions that may be taken over.
    pub available: Versions,
    /// What the host has of them.
    pub installed: Instances,
}
