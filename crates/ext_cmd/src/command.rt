// Commands.
ghost use Rattle.std.specs.Prelude.{◌≡◌};
ghost use Rattle.ext_cmd.specs.Marks.{kept_marks};

use crate::portable::PortCommand;
use crate::resource::Resource;
use ext_text::{Arch, Names, Path, Scope, Text};
use ext_transfer::Component;
use ext_vers::Version;

/// A command, as it was given: what its words leave out is left out here too.
#[derive(Drop)]
pub enum Command {
    /// `init ARCH SCOPE [HIERS [HIERS]]`: a store for a host without entries.
    Init {
        /// What the host is made for.
        arch: Arch,
        /// `System` or `Initrd`.
        scope: Scope,
        /// The hierarchies of its classes.
        hierarchies: Chosen,
    },
    /// `import-fs RES ABS`: a tree of the depot in place of what stands at and below the path.
    ImportFs {
        /// The tree in the depot.
        resource: Resource,
        /// The path in the host, which may be the root.
        path: Path,
    },
    /// `remove ABS`: what stands at and below the path goes.
    Remove {
        /// The path; it isn't the root.
        path: Path,
    },
    /// `sysext ..`: what is done with system extensions.
    Sysext(ViewCommand),
    /// `confext ..`: what is done with configuration extensions.
    Confext(ViewCommand),
    /// `tree [ABS]`: the text of the tree below the path.
    Tree {
        /// The path; none where it was left out, which means the root.
        path: Option<Path>,
    },
    /// `cat ABS`: the bytes of the file.
    Cat {
        /// The path; it isn't the root.
        path: Path,
    },
    /// `compare TEXT TEXT`: how the first version is ordered against the second.
    Compare(Text, Text),
    /// `check`: whether each file of the host has its listed stamp.
    Check,
    /// `layer`: the layered tree of the source's trees.
    Layer,
    /// `migrate`: the store in the newest form of its text.
    Migrate,
    /// `batch`: the commands of the source's lines, one after another.
    Batch,
    /// `sample N`: what a made host with so many images comes to.
    Sample {
        /// How many images it has: 1 to 500.
        images: u32,
    },
    /// `sysupdate [--component=NAME] ..`: what is asked of the versions and the features of updates, or done with them;
    /// systemd-sysupdate(8).
    Sysupdate {
        /// The component of which it is asked, whose name doesn't begin with `-`; none where it was left out, which means
        /// what belongs to no component.
        component: Option<Component>,
        /// What is asked.
        verb: UpdateVerb,
    },
    /// `sysupdate components`: the components that the host has.
    Components,
    /// `portable ..`: what is done with portable services.
    Portable(PortCommand),
    /// `mark [K]`: what the host has now is marked under the number of its generation, and the K youngest marks stay.
    Mark {
        /// How many marks stay at the most: 1 to [`MOST_MARKS`]. None where it was left out, which means [`MOST_MARKS`].
        keep: Option<u32>,
    },
    /// `history`: the marks, the youngest first.
    History,
    /// `history --changes N`: what has changed since a mark.
    HistoryChanges {
        /// The number of the mark's generation, which is at least 1.
        mark: u32,
    },
    /// `rollback N`: the host goes back to a mark.
    Rollback {
        /// The number of the mark's generation, which is at least 1.
        mark: u32,
    },
    /// `forget N`: a mark is dropped.
    Forget {
        /// The number of the mark's generation, which is at least 1.
        mark: u32,
    },
}

/// What is done with the extensions of a class; systemd-sysext(8). `changes` and `explain` are this project's own.
#[derive(Drop)]
pub enum ViewCommand {
    /// `list`: the images that are found, and whether they fit.
    List,
    /// `status`: the names that are merged.
    Status,
    /// `merge [--force]`: the images that fit are merged.
    Merge {
        /// Each image counts as one that fits.
        force: bool,
    },
    /// `unmerge`: nothing is merged any more.
    Unmerge,
    /// `refresh [--force]`: what is merged goes, and the images that fit are merged.
    Refresh {
        /// Each image counts as one that fits.
        force: bool,
    },
    /// `changes [--force]`: what a refresh would show that the base doesn't have, and the other way round.
    Changes {
        /// Each image counts as one that fits.
        force: bool,
    },
    /// `explain [--force] ABS`: which layers of a refresh have an entry at the path, or hide what is below them there.
    Explain {
        /// Each image counts as one that fits.
        force: bool,
        /// The path; it isn't the root.
        path: Path,
    },
}

/// The hierarchies that `init` is given: names of directories directly below the root, each list in the order of its
/// words.
#[derive(Drop)]
pub enum Chosen {
    /// None is given: system extensions have `/usr` and `/opt`, configuration extensions `/etc`.
    Default,
    /// Those of system extensions. Configuration extensions have `/etc`.
    Sysext(Names),
    /// The hierarchies of both classes.
    Both {
        /// The hierarchies of system extensions.
        sysext: Names,
        /// The hierarchies of configuration extensions.
        confext: Names,
    },
}

/// What is asked of updates; systemd-sysupdate(8).
#[derive(Drop)]
pub enum UpdateVerb {
    /// `list`: the versions that are installed or available.
    List,
    /// `check-new`: the version that an update would install.
    CheckNew,
    /// `update [VERSION]`: a version is installed, and what goes so that there is room for it is removed.
    Update {
        /// The version, by the rule of [`is_version`](ext_vers::is_version); none where it was left out, which means the newest.
        version: Option<Version>,
    },
    /// `vacuum`: what is more than each target keeps is removed.
    Vacuum,
    /// `features`: the features, and which of them are on.
    Features,
}

/// The most marks that stay.
pub const MOST_MARKS: u32 = 16;

/// How many marks stay at the most where `mark` was given this.
pub fn kept_marks(keep: Option<u32>) -> u32
    ensures { result ≡ kept_marks keep }
{
    match keep {
        None => MOST_MARKS,
        Some(keep) => keep,
    }
}
