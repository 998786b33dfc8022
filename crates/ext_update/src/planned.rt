use crate::refusal::UpdateRefusal;
use ext_host::Host;
use ext_text::SortedPaths;
use ext_vers::Version;

/// What an update wants.
#[derive(Drop)]
pub enum Update {
    /// Nothing changes.
    Unchanged,
    /// The version that comes, and the host that has it.
    Changes(Version, Host),
    /// It is refused.
    Refused(UpdateRefusal),
}

/// What making room wants.
#[derive(Drop)]
pub enum Vacuum {
    /// Nothing changes.
    Unchanged,
    /// The paths that go, in path order, and the host without them.
    Changes(SortedPaths, Host),
    /// It is refused.
    Refused(UpdateRefusal),
}

// What is planned of what is written and removed.
#[derive(Drop)]
pub(crate) enum Planned {
    // The coming host.
    Next(Host),
    // It is refused.
    Refused(UpdateRefusal),
}
