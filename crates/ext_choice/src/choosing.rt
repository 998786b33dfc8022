ghost use Rattle.std.specs.Prelude.{◌≡◌};
ghost use Rattle.std.specs.List.Sorted.{IsStrictlySortedBy};
ghost use Rattle.std.specs.Option.{option_copied};
ghost use Rattle.ext_vers.specs.Version.{order_of};
ghost use Rattle.ext_choice.specs.Choice.{Chooses, ChoosesNewest, ChoosesWanted, exceeds};

use ext_vers::{Version, compare};
use ext_versions::Versions;

/// What an update does.
#[derive(Clone, Copy, PartialEq, Eq)]
pub enum Choice {
    /// It installs the available version at this place, counted from 0.
    Install(usize),
    /// The wanted version is installed.
    Present,
    /// No available version is newer than each installed one.
    NoneNewer,
    /// The wanted version is neither installed nor available.
    NoSuch,
}

/// What an update does about the available versions and the installed ones, after systemd-sysupdate(8). It takes no memory.
///
/// | wanted | installed | available | the choice |
/// |---|---|---|---|
/// | none | | the newest one is newer than each installed one | `Install` with the place of the newest |
/// | none | | none, or the newest one is not newer | `NoneNewer` |
/// | a version | it is | | `Present` |
/// | a version | it isn't | it is | `Install` with its place |
/// | a version | it isn't | it isn't | `NoSuch` |
///
/// A version is newer than another one where [`compare`] puts it above; of equal ones with other bytes none is newer. The newest
/// available one is the last one by [`order`](ext_vers::order). A wanted version is told by its bytes. That is this project's own
/// choice.
pub fn choose(available: &Versions, installed: &Versions, wanted: Option<&[u8]>) -> Choice
    ensures { Chooses available.now installed.now (option_copied wanted.entry) result }
{
    match wanted {
        None => newest(available.as_slice(), installed.as_slice()),
        Some(version) => wanted_one(available, installed, version),
    }
}

// The newest available version, where it is newer than each installed one.
fn newest(available: &[Version], installed: &[Version]) -> Choice
    requires available { IsStrictlySortedBy order_of available.now }
    requires installed { IsStrictlySortedBy order_of installed.now }
    ensures { ChoosesNewest available.now installed.now result }
{
    let Some(version) = available.last() else {
        return Choice::NoneNewer;
    };
    let last = installed.last();
    if exceeds(version, last) {
        Choice::Install(available.len() - 1)
    } else {
        Choice::NoneNewer
    }
}

// Whether a version is newer than the last of some, if there is one.
fn exceeds(version: &Version, last: Option<&Version>) -> bool
    ensures { result ≡ exceeds version.now (option_copied last.entry) }
{
    match last {
        None => true,
        Some(last) => compare(version.bytes(), last.bytes()).is_gt(),
    }
}

// The version that is wanted.
fn wanted_one(available: &Versions, installed: &Versions, version: &[u8]) -> Choice
    ensures { ChoosesWanted available.now installed.now version.now result }
{
    if installed.has(version) {
        return Choice::Present;
    }
    match available.place_of(version) {
        Some(place) => Choice::Install(place),
        None => Choice::NoSuch,
    }
}
