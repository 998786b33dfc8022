// The first names of a path, and the others.
ghost use Rattle.std.specs.Prelude.{◌≡◌, ◌↔◌, [], drop, take, IfOk, IsTrue, length};
ghost use Rattle.ext_text.specs.Path.{IsPath};
ghost use Rattle.ext_text.specs.Prefix.{are_related, is_prefix, is_proper_prefix, parent};

use crate::path::Path;
use crate::path_ref::PathRef;
use ext_lines::OutOfMemory;

impl Path {
    /// Whether this is the root.
    pub fn is_root(&self) -> bool
        ensures { IsTrue result ↔ (self.now ≡ []) }
    {
        self.names().is_root()
    }

    /// How many names there are.
    pub fn depth(&self) -> usize
        ensures { result ≡ length self.now }
    {
        self.names().depth()
    }

    /// All names but the last; none for the root.
    pub fn parent(&self) -> PathRef<'_>
        ensures { result ≡ parent self.now }
    {
        self.names().parent()
    }

    /// The path of the first names, so many of them; all names, where there are no more.
    ///
    /// # Errors
    /// `OutOfMemory` alone.
    pub fn prefix(&self, count: usize) -> Result<Path, OutOfMemory>
        ensures { IfOk result (λ prefix. prefix ≡ take count self.now) }
    {
        Path::of_names(self.allocator(), &self.names().prefix(count))
    }

    /// The path of the names after the first ones, so many of them; the root, where there are no more.
    ///
    /// # Errors
    /// `OutOfMemory` alone.
    pub fn rest(&self, count: usize) -> Result<Path, OutOfMemory>
        ensures { IfOk result (λ rest. rest ≡ drop count self.now) }
    {
        Path::of_names(self.allocator(), &self.names().rest(count))
    }

    /// Whether this path is the other one or lies below it.
    pub fn starts_with(&self, other: &Path) -> bool
        ensures { result ≡ is_prefix other.now self.now }
    {
        self.names().starts_with(&other.names())
    }

    /// Whether this path lies below the other one. All others lie below the root.
    pub fn is_below(&self, other: &Path) -> bool
        ensures { result ≡ is_proper_prefix other.now self.now }
    {
        self.starts_with(other) && !other.starts_with(self)
    }

    /// Whether one of the paths is the other one or lies below it.
    pub fn is_related(&self, other: &Path) -> bool
        ensures { result ≡ are_related self.now other.now }
    {
        other.starts_with(self) || self.starts_with(other)
    }
}
