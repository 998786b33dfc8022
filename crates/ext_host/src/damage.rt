use crate::home::Home;
use ext_tree::Stamp;

/// A kept file that is another than the one that is listed.
#[derive(Clone, Copy, Debug, PartialEq, Eq)]
pub struct Damage {
    /// Where the file is kept.
    pub home: Home,
    /// The stamp that it is listed with.
    pub listed: Stamp,
    /// The stamp of the file that stands there; `None` exactly where no file of the listed size does.
    pub found: Option<Stamp>,
}
