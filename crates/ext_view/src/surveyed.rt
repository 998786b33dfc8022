// What a survey tells.
use ext_find::BreakWhy;
use ext_match::Verdict;
use ext_text::{Name, Path};

/// An image or a mask of a host, and what is known of it.
#[derive(Drop)]
pub struct SurveyItem {
    /// Its name.
    pub name: Name,
    /// Where it is in the base.
    pub place: Path,
    /// What it is, and whether it fits.
    pub kind: SurveyKind,
}

/// What an item of a survey is.
#[derive(Clone, Copy, PartialEq, Eq)]
pub enum SurveyKind {
    /// A mask: there is no image of this name.
    Masked,
    /// An image in a file, which is not looked into.
    Raw,
    /// A directory image that cannot be used.
    Broken(BreakWhy),
    /// A directory image whose release file is faulty.
    BadRelease {
        /// The first line that is, counted from 1.
        line: u64,
    },
    /// A directory image that can be used, and whether it fits the host.
    Image(Verdict),
}
