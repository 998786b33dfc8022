ghost use Rattle.std.specs.Prelude.{◌≡◌, ◌↔◌, IfOk, IsTrue};
ghost use Rattle.ext_attributes.specs.Attributes.{file_of_mode, is_plain_file, plain_file, with_capability};

use crate::attributes::Attributes;
use crate::capability::Capability;
use ext_lines::OutOfMemory;
use ext_text::Mode;
use std::alloc::Global;
use std::marker::Model;

/// What a file has beside its path and its bytes. A capability lies in an allocation of its own, so that the many files
/// that have none take no room for one.
#[derive(Drop)]
pub struct FileAttributes {
    kept: Kept,
}

// With a capability or without: what the few files with one have lies in the box, so that all others take as little room as
// a directory's attributes.
#[derive(Drop)]
enum Kept {
    Plain(Attributes),
    Capable(Box<Capable>),
}

// What a file with a capability has.
#[derive(Drop)]
struct Capable {
    attributes: Attributes,
    capability: Capability,
}

impl Model for FileAttributes {
    ghost use Rattle.ext_attributes.specs.Attributes.{OfFile};
    ghost use Rattle.ext_attributes.specs.Kept.{of_file};

    ghost Value = { OfFile };

    ghost view = { λ f. of_file f.kept };
}

impl FileAttributes {
    /// Those of a file without a capability.
    pub fn plain(attributes: Attributes) -> FileAttributes
        ensures { result ≡ plain_file attributes }
    {
        FileAttributes {
            kept: Kept::Plain(attributes),
        }
    }

    /// Those of a file of root's with this mode, without a capability.
    pub fn of_mode(mode: Mode) -> FileAttributes
        ensures { result ≡ file_of_mode mode }
    {
        FileAttributes::plain(Attributes::of_mode(mode))
    }

    /// Those of a file that may have a capability.
    ///
    /// # Errors
    /// `OutOfMemory` alone.
    pub fn new(
        alloc: Global,
        attributes: Attributes,
        capability: Option<Capability>,
    ) -> Result<FileAttributes, OutOfMemory>
        ensures { IfOk result (λ file. file ≡ with_capability attributes capability) }
    {
        match capability {
            None => Ok(FileAttributes::plain(attributes)),
            Some(capability) => {
                let capable = Capable {
                    attributes,
                    capability,
                };
                Ok(FileAttributes {
                    kept: Kept::Capable(Box::new(alloc, capable)?),
                })
            }
        }
    }

    /// The mode and the owner.
    pub fn attributes(&self) -> &Attributes
        ensures { result.now ≡ self.now.attributes }
    {
        match &self.kept {
            Kept::Plain(attributes) => attributes,
            Kept::Capable(capable) => &capable.as_ref().attributes,
        }
    }

    /// The capability.
    pub fn capability(&self) -> Option<Capability>
        ensures { result ≡ self.now.capability }
    {
        match &self.kept {
            Kept::Plain(_) => None,
            Kept::Capable(capable) => Some(capable.as_ref().capability),
        }
    }

    /// Whether they are a mode alone.
    pub fn is_plain(&self) -> bool
        ensures { result ≡ is_plain_file self.now }
    {
        match &self.kept {
            Kept::Plain(attributes) => attributes.is_plain(),
            Kept::Capable(_) => false,
        }
    }

    /// Whether the modes, the owners and the capabilities are equal.
    pub fn equals(&self, other: &FileAttributes) -> bool
        ensures { IsTrue result ↔ (self.now ≡ other.now) }
    {
        self.attributes().equals(other.attributes())
            && are_same(&self.capability(), &other.capability())
    }

    /// Equal ones.
    ///
    /// # Errors
    /// `OutOfMemory` alone.
    pub fn copy(&self) -> Result<FileAttributes, OutOfMemory>
        ensures { IfOk result (λ copy. copy ≡ self.now) }
    {
        match &self.kept {
            Kept::Plain(attributes) => Ok(FileAttributes::plain(*attributes)),
            Kept::Capable(capable) => {
                let alloc = *Box::allocator(capable);
                let capable = capable.as_ref();
                FileAttributes::new(alloc, capable.attributes, Some(capable.capability))
            }
        }
    }
}

// Whether two capabilities are equal, or both are none.
fn are_same(capability: &Option<Capability>, other: &Option<Capability>) -> bool
    ensures { IsTrue result ↔ (capability.now ≡ other.now) }
{
    match (capability, other) {
        (None, None) => true,
        (Some(capability), Some(other)) => capability == other,
        _ => false,
    }
}
