use ext_pattern::Pattern;
use ext_text::{Lines, ListOf, Mode, Name, Path, Text};

/// A list of patterns, in the order in which names are matched with them.
pub type Patterns = ListOf<Pattern>;

/// What the resources of a transfer are.
#[derive(Clone, Copy, PartialEq, Eq)]
pub enum ResourceType {
    /// Each is a file.
    File,
    /// Each is a directory.
    Directory,
}

/// Where the resources of a source or of a target are, and by which names.
#[derive(Drop)]
pub struct Location {
    /// The directory in which they are: a path of the depot for a source, and of the host for a target.
    pub path: Path,
    /// The patterns of their names, of which there are 1 to 64. The first that matches a name counts.
    pub patterns: Patterns,
}

/// What a transfer file says: which resources are taken over from a source into a target, by sysupdate.d(5).
#[derive(Drop)]
pub struct Transfer {
    /// The name of the transfer file.
    pub file: Name,
    /// What the resources are, in the source and in the target.
    pub resources: ResourceType,
    /// The source. Its path has at most 63 names and 3,840 bytes.
    pub source: Location,
    /// The target.
    pub target: Location,
    /// The mode of a file that is written, 644 by default.
    pub mode: Mode,
    /// How many versions the target has at most, 2 to 1,000,000, and 2 by default.
    pub instances: u32,
    /// The path of the link to the current version, if one is set. It isn't the root.
    pub link: Option<Path>,
    /// The least version that may be taken over, if one is set.
    pub min: Option<Text>,
    /// The versions that are never removed, as they stand in the file.
    pub protect: Lines,
    /// The features of which one has to be on, where any are listed.
    pub features: Lines,
    /// The features of which each has to be on.
    pub requisite: Lines,
}
