use ext_text::{Name, Names};
use ext_units::Image;

/// What of an attachment is copied, and what is linked. After portablectl(1), option `--copy=`.
#[derive(Clone, Copy, PartialEq, Eq)]
pub enum CopyMode {
    /// Units and profiles are copied; an image is linked, which is this project's own choice.
    Copy,
    /// All is linked.
    Symlink,
    /// Units are copied, profiles and images are linked.
    Auto,
    /// Units and images are copied, profiles are linked.
    Mixed,
}

/// Which image is to be attached, and how.
#[derive(Drop)]
pub struct Ask {
    /// The image; a path is not the root.
    pub image: Image,
    /// The prefixes of its units; where there is none, that of the image's name counts.
    pub prefixes: Names,
    /// The name of the profile.
    pub profile: Name,
    /// Whether it lasts until the host stops.
    pub runtime: bool,
    /// What is copied.
    pub copy: CopyMode,
}
