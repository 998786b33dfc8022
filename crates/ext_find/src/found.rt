// What a search finds.
use ext_text::{ListOf, Name, Path};

/// An image or a mask that a search finds.
#[derive(Drop)]
pub struct FoundItem {
    /// Its name: that of the entry without its ending.
    pub name: Name,
    /// Where it is in the base: the path of its entry in the search directory, or below that of the picked version. Links in
    /// its last name are not replaced.
    pub place: Path,
    /// What it is.
    pub kind: FoundKind,
    /// Where the release file of an image that can be used is in the base. Any other item has none, and so has an image of
    /// portable services.
    pub release: Option<Path>,
}

/// What a found item is.
#[derive(Clone, Copy, PartialEq, Eq)]
pub enum FoundKind {
    /// A directory image that can be used.
    Image,
    /// A mask: there is no image of this name.
    Masked,
    /// An image in a file, or versions of such, which is not looked into.
    Raw,
    /// A directory image that cannot be used.
    Broken(BreakWhy),
}

/// Why an image cannot be used; the first of these that holds.
#[derive(Clone, Copy, Debug, PartialEq, Eq)]
pub enum BreakWhy {
    /// It has something other than a directory at a hierarchy of its class.
    NotDirectory,
    /// A system extension has an entry `usr/lib/os-release`, be it a whiteout.
    HasOsRelease,
    /// Its release file does not lead to a file inside the image.
    NoRelease,
}

/// What a search finds, in the order of versions of the names.
pub type Found = ListOf<FoundItem>;
