use ext_text::{Name, Path, Which};
use ext_tree::Stamp;

/// Why an update, or making room, is refused.
#[derive(Drop)]
pub enum UpdateRefusal {
    /// The wanted version is neither installed nor available.
    NoSuchVersion,
    /// The depot has no file where a resource is listed.
    NotInDepot {
        /// Where it was looked for, a path of the depot.
        path: Path,
    },
    /// A limit is passed: of a file or a text in the depot, of a path, or of the entries or the bytes of a host.
    Limit {
        /// Which one.
        which: Which,
    },
    /// The text of a directory's tree has another digest than the listed one.
    Mismatch {
        /// The text, a path of the depot.
        path: Path,
        /// The listed digest, with the size that was read.
        listed: Stamp,
        /// The stamp of what was read.
        found: Stamp,
    },
    /// The text of a directory's tree is none.
    BadTree {
        /// The text, a path of the depot.
        path: Path,
        /// Its first faulty line, counted from 1.
        line: u64,
    },
    /// A transfer protects more versions than may stay.
    NoRoom {
        /// The name of the transfer file.
        file: Name,
        /// How many versions of which there are instances are protected.
        protected: u64,
    },
    /// A path that is written or removed is in, at or above a hierarchy of a merged class.
    ReadOnly {
        /// The least such path.
        path: Path,
    },
    /// The path of an item is in the way of another item, or of what stands there.
    Clash {
        /// The least such path.
        path: Path,
    },
    /// Something that is no directory stands above a path that is written.
    NotDirectory {
        /// The least such path.
        path: Path,
    },
}
