// Answers.
use ext_attached::State;
use ext_changes::Changes;
use ext_find::BreakWhy;
use ext_history::Marks;
use ext_match::Verdict;
use ext_origin::Origins;
use ext_text::{Digest, ListOf, Name, Names, Path, SortedPaths, Text};
use ext_units::Inspect;
use ext_vers::Version;
use std::cmp::Ordering;

/// What a command that is done replies. The bytes of a file, which `cat` replies, are no answer: they are written as they
/// are read.
#[derive(Drop)]
pub enum Answer {
    /// `done`: to `init`, `import-fs`, `remove`, `migrate`, `rollback` and `forget`.
    Done,
    /// `unchanged`: to `migrate`, where the store's text has its newest form, and to `sysupdate update`, where the version that is
    /// asked for is installed, or where none is asked for and none is newer than each that is installed.
    Unchanged,
    /// `merged K`, and a line for each of the K names: to `merge`, `refresh` and `status`, the lowest name first.
    Merged(Names),
    /// `unmerged`: to `unmerge`, and to `status` where nothing is merged.
    Unmerged,
    /// A line for each found item: to `list`.
    Found(Items),
    /// The text of a tree: to `tree` and `layer`.
    Tree(Text),
    /// `less`, `equal` or `greater`: to `compare`.
    Order(Ordering),
    /// `ok FILES BYTES`: to `check`.
    Checked {
        /// How many files were read.
        files: u64,
        /// Their bytes.
        bytes: u64,
    },
    /// `entries N`, `files N`, `bytes N` and `sha256 HEX`, each on a line of its own: to `sample`.
    Sample {
        /// How many entries the made host's tree has.
        entries: u64,
        /// How many of them are files.
        files: u64,
        /// The bytes of its files.
        bytes: u64,
        /// The digest of its text.
        digest: Digest,
    },
    /// A line for each version: to `sysupdate list`.
    Versions(VersionItems),
    /// The version, on a line: to `sysupdate check-new`.
    Version(Text),
    /// `updated VERSION`: to `sysupdate update`, where it installed that version.
    Updated(Text),
    /// `removed K`, and a line for each of the K paths, the least first: to `sysupdate vacuum`.
    Removed(SortedPaths),
    /// A line for each feature: to `sysupdate features`.
    Features(FeatureItems),
    /// `components K`, and a line for each of the K names: to `sysupdate components`.
    Components(Names),
    /// `marked N`: to `mark`.
    Marked {
        /// The number of the generation that was marked.
        generation: u32,
    },
    /// `N ENTRIES FILES` for each mark: to `history`, the youngest first.
    History(Marks),
    /// A line for each change: to `history --changes`, and to `changes` of a class.
    Changes(Changes),
    /// A line for each layer: to `explain`, the topmost first.
    Explained(Origins),
    /// A line for each found item: to `portable list`.
    Services(ServiceItems),
    /// `image PLACE`, `id ID`, `version VERSION`, each on a line of its own, and a line `unit NAME` for each unit: to
    /// `portable inspect`. What is unset is told as `-`.
    Inspected(Inspect),
    /// `detached`, `attached` or `attached-runtime`: to `portable is-attached`.
    State(State),
    /// `attached K`, and a line for each of the K units, by their bytes: to `portable attach` and `portable reattach`.
    Attached(Names),
    /// `detached`: to `portable detach`.
    Detached,
}

/// An image or a mask that `list` finds.
#[derive(Drop)]
pub struct Item {
    /// Its name.
    pub name: Name,
    /// Where it is in the host.
    pub place: Path,
    /// What it is.
    pub kind: ItemKind,
}

/// What a found item is.
#[derive(Clone, Copy)]
pub enum ItemKind {
    /// `image`: a directory image, and whether it fits the host.
    Image(Verdict),
    /// `masked`: there is no image of this name.
    Masked,
    /// `raw`: an image in a file, which is not looked into.
    Raw,
    /// `broken`: an image that can't be used.
    Broken(BreakWhy),
    /// `broken`, and `bad-release LINE`: an image whose release file is faulty.
    BadRelease {
        /// The first faulty line, counted from 1.
        line: u64,
    },
}

/// A list of found items.
pub type Items = ListOf<Item>;

/// A version that `sysupdate list` tells: the version, and its flags in the order of the fields.
#[derive(Drop)]
pub struct VersionItem {
    /// The version.
    pub version: Version,
    /// `available`: each source has it.
    pub available: bool,
    /// `installed` or `partial`: which of the targets have it.
    pub presence: Presence,
    /// `protected`: it is never removed.
    pub protected: bool,
    /// `obsolete`: it is less than the least version that may be taken over.
    pub obsolete: bool,
}

/// Which of the targets of transfers have a version.
#[derive(Clone, Copy)]
pub enum Presence {
    /// None has it.
    Absent,
    /// `partial`: some have it, and some don't.
    Partial,
    /// `installed`: each has it.
    Installed,
}

/// A list of versions.
pub type VersionItems = ListOf<VersionItem>;

/// A feature that `sysupdate features` tells.
#[derive(Drop)]
pub struct FeatureItem {
    /// Its name.
    pub name: Name,
    /// `on` or `off`: whether it is enabled.
    pub on: bool,
}

/// A list of features.
pub type FeatureItems = ListOf<FeatureItem>;

/// An image of a portable service, or a mask, that `portable list` finds.
#[derive(Drop)]
pub struct ServiceItem {
    /// Its name.
    pub name: Name,
    /// Where it is in the host.
    pub place: Path,
    /// What it is.
    pub kind: ServiceKind,
}

/// What a found item of portable services is.
#[derive(Clone, Copy)]
pub enum ServiceKind {
    /// `image`: a directory image, and whether it is attached.
    Image(State),
    /// `masked`: there is no image of this name.
    Masked,
    /// `raw`: an image in a file, which is not looked into.
    Raw,
}

/// A list of found items of portable services.
pub type ServiceItems = ListOf<ServiceItem>;
