// Longer paths: a name, or another path, below a path.
ghost use Rattle.std.specs.Prelude.{◌≡◌, ◌+◌, ◌<◌, ◌≤◌, [], ◌∷◌, ◌++◌, length, IfOk};
ghost use Rattle.ext_text.specs.Name.{IsName};
ghost use Rattle.ext_text.specs.Path.{IsPath, Lengthens};
ghost use Rattle.ext_text.specs.PathText.{text_of_both};

use crate::name::Name;
use crate::path::{INLINE_BYTES, MOST_BYTES, MOST_NAMES, Path, PathErr};
use crate::path_ref::PathRef;
use ext_lines::OutOfMemory;
use smallvec::SmallVec;
use std::alloc::Global;

impl Path {
    /// The path of the name below this one.
    ///
    /// # Errors
    /// `TooLong` exactly where the longer path's text has more than 4,096 bytes, else `TooDeep` exactly where it has
    /// more than 64 names. `BadName` never comes. `OutOfMemory` may come at any time.
    pub fn child(&self, name: &Name) -> Result<Path, PathErr>
        ensures { Lengthens (self.now ++ name.now ∷ []) result }
    {
        self.child_of(name.bytes())
    }

    /// The path of the name of these bytes below this one.
    ///
    /// # Errors
    /// As for `child`.
    pub fn child_of(&self, name: &[u8]) -> Result<Path, PathErr>
        requires { IsName name.now }
        ensures { Lengthens (self.now ++ name.now ∷ []) result }
    {
        self.names().join(self.allocator(), &PathRef::of_name(name))
    }

    /// The other path below this one. At the root no `/` counts.
    ///
    /// # Errors
    /// As for `child`.
    pub fn join(&self, other: &Path) -> Result<Path, PathErr>
        ensures { Lengthens (self.now ++ other.now) result }
    {
        self.names().join(self.allocator(), &other.names())
    }
}

impl<'a> PathRef<'a> {
    /// The path of the other names below these. Each of both are the names of a path.
    ///
    /// # Errors
    /// As for `Path::child`.
    pub fn join(&self, alloc: Global, other: &PathRef) -> Result<Path, PathErr>
        requires upper { IsPath self.now }
        requires lower { IsPath other.now }
        ensures { Lengthens (self.now ++ other.now) result }
    {
        let upper = self.text();
        let lower = other.text();
        if len_of_both(upper, lower) > MOST_BYTES {
            return Err(PathErr::TooLong);
        }
        if self.depth() + other.depth() > MOST_NAMES {
            return Err(PathErr::TooDeep);
        }
        Ok(Path::of_text(both(alloc, upper, lower)?))
    }
}

// How many bytes both texts have, one below the other.
fn len_of_both(upper: &[u8], lower: &[u8]) -> usize
    requires upper { length upper.now ≤ 4096 }
    requires lower { length lower.now ≤ 4096 }
    ensures { result ≡ length (text_of_both upper.now lower.now) }
{
    match (upper, lower) {
        ([], _) => lower.len(),
        ([_, ..], []) => upper.len(),
        ([_, ..], [_, ..]) => upper.len() + 1 + lower.len(),
    }
}

// Both texts, one below the other.
fn both(
    alloc: Global,
    upper: &[u8],
    lower: &[u8],
) -> Result<SmallVec<u8, INLINE_BYTES>, OutOfMemory>
    requires upper { length upper.now ≤ 4096 }
    requires lower { length lower.now ≤ 4096 }
    ensures { IfOk result (λ text. text.items ≡ text_of_both upper.now lower.now) }
{
    let mut text = SmallVec::with_capacity(alloc, upper.len() + 1 + lower.len())?;
    text.extend_from_slice(upper)?;
    if !upper.is_empty() && !lower.is_empty() {
        text.push(b'/')?;
    }
    text.extend_from_slice(lower)?;
    Ok(text)
}
