ghost use Rattle.std.specs.Prelude.{◌≡◌, [], ◌++◌, IfOk, OnErr, OnOk};
ghost use Rattle.ext_lines.specs.Prefix.{AppendsPrefix};
ghost use Rattle.ext_text.specs.Path.{IsPath, ReadsPath, path_text, path_parts};

use crate::parts::{are_names, count_of_parts};
use crate::path_ref::PathRef;
use ext_lines::{OutOfMemory, allocated};
use smallvec::SmallVec;
use std::alloc::Global;
use std::marker::Model;
use thiserror::Error;

/// The most bytes of a path's text.
pub(crate) const MOST_BYTES: usize = 4096;

/// The most names of a path.
pub(crate) const MOST_NAMES: usize = 64;

/// The bytes of a path's text that need no memory of their own: enough for most paths.
pub(crate) const INLINE_BYTES: usize = 40;

/// Why a text, or a longer list of names, is no path.
#[derive(Clone, Copy, Debug, PartialEq, Eq, Error)]
pub enum PathErr {
    /// An allocation failed.
    #[error("out of memory")]
    OutOfMemory,
    /// It has more than 4,096 bytes, the slashes between the names included.
    #[error("a path of more than 4,096 bytes")]
    TooLong,
    /// It has more than 64 names.
    #[error("a path of more than 64 names")]
    TooDeep,
    /// A part is no name.
    #[error("a part of the path is not a name")]
    BadName,
}

impl From<OutOfMemory> for PathErr {
    ghost use Rattle.std.specs.Prelude.{◌≡◌};
    ghost use Rattle.ext_text.specs.declared.path.PathErr.TheVariants as errors;

    ghost from_gives = { λ _ e. e ≡ errors.OutOfMemory };

    fn from(_failed: OutOfMemory) -> PathErr {
        PathErr::OutOfMemory
    }
}

/// The path of an entry: at most 64 names, from the root on, whose text has at most 4,096 bytes. Contracts see it as the
/// list of its names, each as its bytes. The root is the empty list. It is kept as its text.
#[derive(Debug, Drop)]
pub struct Path {
    text: SmallVec<u8, INLINE_BYTES>,
}

impl Model for Path {
    ghost use Rattle.std.specs.Prelude.{ℕ, List};
    ghost use Rattle.ext_text.specs.Path.{IsPath, path_parts};

    ghost Value = { List (List ℕ) };

    ghost view = { λ p. path_parts p.text.items };

    ghost invariant = { λ p. IsPath (path_parts p.text.items) };
}

impl Path {
    /// The root.
    pub fn root(alloc: Global) -> Path
        ensures { result ≡ [] }
    {
        Path {
            text: SmallVec::new(alloc),
        }
    }

    /// The path of this text: names with a `/` between each two and none before the first. The empty text is the root.
    ///
    /// # Errors
    /// The first of these:
    ///
    /// - `TooLong` exactly over 4,096 bytes.
    /// - `TooDeep` exactly where a text that is not empty has more than 64 parts.
    /// - `BadName` exactly where a part is no name.
    ///
    /// `OutOfMemory` may come at any time.
    pub fn read(alloc: Global, bytes: &[u8]) -> Result<Path, PathErr>
        ensures { ReadsPath bytes.now result }
    {
        if bytes.len() > MOST_BYTES {
            return Err(PathErr::TooLong);
        }
        if count_of_parts(bytes) > MOST_NAMES {
            return Err(PathErr::TooDeep);
        }
        if !are_names(bytes) {
            return Err(PathErr::BadName);
        }
        Ok(Path {
            text: allocated(SmallVec::from_slice(alloc, bytes))?,
        })
    }

    /// The path of these names, which are within the limits.
    ///
    /// # Errors
    /// `OutOfMemory` alone.
    pub fn of_names(alloc: Global, names: &PathRef) -> Result<Path, OutOfMemory>
        requires { IsPath names.now }
        ensures { IfOk result (λ path. path ≡ names.now) }
    {
        let text = names.text();
        Ok(Path {
            text: SmallVec::from_slice(alloc, text)?,
        })
    }

    /// The text: the names with a `/` between each two.
    pub fn text(&self) -> &[u8]
        ensures same { result.now ≡ path_text self.now }
        ensures parts { path_parts result.now ≡ self.now }
        ensures path { IsPath self.now }
    {
        self.text.as_slice()
    }

    /// The names, from the root on.
    pub fn names(&self) -> PathRef<'_>
        ensures same { result ≡ self.now }
        ensures path { IsPath self.now }
    {
        let text = self.text();
        PathRef::of_text(text)
    }

    /// Adds the path's text at the end of another: the names with a `/` between each two.
    ///
    /// # Errors
    /// `OutOfMemory` alone. Some prefix of the path's text was then added.
    pub fn append_to(&self, text: &mut Vec<u8>) -> Result<(), OutOfMemory>
        ensures ok { OnOk result (text.new.items ≡ text.old.items ++ path_text self.now) }
        ensures err { OnErr result (AppendsPrefix text.old.items text.new.items (path_text self.now)) }
    {
        text.extend_from_slice(self.text())?;
        Ok(())
    }

    /// An equal path.
    ///
    /// # Errors
    /// `OutOfMemory` alone.
    pub fn copy(&self) -> Result<Path, OutOfMemory>
        ensures { IfOk result (λ copy. copy ≡ self.now) }
    {
        Path::of_names(self.allocator(), &self.names())
    }

    // The path of a text, which is not copied.
    pub(crate) fn of_text(text: SmallVec<u8, INLINE_BYTES>) -> Path
        requires { IsPath (path_parts text.items) }
        ensures { result ≡ path_parts text.items }
    {
        Path { text }
    }

    // Where the path's text has its memory.
    pub(crate) fn allocator(&self) -> Global {
        *self.text.allocator()
    }
}
