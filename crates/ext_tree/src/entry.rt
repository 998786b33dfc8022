ghost use Rattle.std.specs.Prelude.{◌≡◌, max, IfOk};
ghost use Rattle.ext_tree.specs.Tree.{is_directory, is_file, is_hide, is_opaque, is_plain_entry};
ghost use Rattle.ext_tree.specs.TreeText.{needed_version};

use ext_attributes::{Attributes, FileAttributes, Owner};
use ext_lines::OutOfMemory;
use ext_text::Text;
use std::alloc::Global;

/// What stands at a path.
#[derive(Drop)]
pub enum Entry<C> {
    /// A directory with its attributes.
    Dir(Attributes),
    /// An opaque directory with its attributes: of lower layers nothing shows below it.
    Opaque(Attributes),
    /// A file with its attributes and what is known of its bytes.
    File(FileAttributes, C),
    /// A symbolic link with its owner and its target's text, which is followed nowhere here.
    Link(Owner, Text),
    /// A whiteout: of lower layers nothing shows at its path.
    Hide,
}

/// Contents that can be copied.
pub trait Held1: Sized {
    /// An equal value.
    ///
    /// # Errors
    /// Out of memory alone.
    fn copy(&self, alloc: Global) -> Result<Self, OutOfMemory>
        ensures { IfOk result (λ copy. copy ≡ self.now) };
}

impl<C: Held1> Entry<C> {
    /// An equal entry.
    ///
    /// # Errors
    /// Out of memory alone.
    pub fn copy(&self, alloc: Global) -> Result<Entry<C>, OutOfMemory>
        ensures { IfOk result (λ copy. copy ≡ self.now) }
    {
        match self {
            Entry::Dir(attributes) => Ok(Entry::Dir(*attributes)),
            Entry::Opaque(attributes) => Ok(Entry::Opaque(*attributes)),
            Entry::File(attributes, content) => {
                let attributes = attributes.copy()?;
                Ok(Entry::File(attributes, content.copy(alloc)?))
            }
            Entry::Link(owner, target) => Ok(Entry::Link(*owner, target.copy()?)),
            Entry::Hide => Ok(Entry::Hide),
        }
    }
}

impl<C> Entry<C> {
    /// Whether entries may stand in it.
    pub fn is_directory(&self) -> bool
        ensures { result ≡ is_directory self.now }
    {
        matches!(self, Entry::Dir(_) | Entry::Opaque(_))
    }

    /// Whether it has bytes.
    pub fn is_file(&self) -> bool
        ensures { result ≡ is_file self.now }
    {
        matches!(self, Entry::File(_, _))
    }

    /// Whether it is an opaque directory.
    pub fn is_opaque(&self) -> bool
        ensures { result ≡ is_opaque self.now }
    {
        matches!(self, Entry::Opaque(_))
    }

    /// Whether it is a whiteout.
    pub fn is_hide(&self) -> bool
        ensures { result ≡ is_hide self.now }
    {
        matches!(self, Entry::Hide)
    }

    /// Whether it is root's, and without a capability.
    pub fn is_plain(&self) -> bool
        ensures { result ≡ is_plain_entry self.now }
    {
        match self {
            Entry::Dir(attributes) | Entry::Opaque(attributes) => attributes.is_plain(),
            Entry::File(attributes, _) => attributes.is_plain(),
            Entry::Link(owner, _) => owner.is_root(),
            Entry::Hide => true,
        }
    }

    // The first version of the format that has a line for it.
    pub(crate) fn needed_version(&self) -> u8
        ensures { result ≡ needed_version self.now }
    {
        match self {
            Entry::Dir(attributes) => if attributes.is_plain() { 1 } else { 3 },
            Entry::Opaque(attributes) => if attributes.is_plain() { 2 } else { 3 },
            Entry::File(attributes, _) => if attributes.is_plain() { 1 } else { 3 },
            Entry::Link(owner, _) => if owner.is_root() { 1 } else { 3 },
            Entry::Hide => 2,
        }
    }
}

// The higher of two versions.
pub(crate) fn higher(version: u8, other: u8) -> u8
    ensures { result ≡ max version other }
{
    if version < other { other } else { version }
}
