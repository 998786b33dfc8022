ghost use Rattle.std.specs.Prelude.{◌≡◌, ◌↔◌, IsTrue, IsUtf8, IfOk};
ghost use Rattle.std.specs.List.{AllPass};
ghost use Rattle.ext_text.specs.Name.{HasNameShape, IsName, ReadsName, is_name_byte};

use crate::plain::are_plain_ascii;
use ext_lines::{OutOfMemory, allocated, is_plain_byte};
use smallvec::SmallVec;
use std::alloc::Global;
use std::marker::Model;
use std::str;
use thiserror::Error;

/// The most bytes of a name.
const MOST_BYTES: usize = 255;

/// The bytes of a name that need no memory of their own: enough for most names.
const INLINE_BYTES: usize = 16;

/// Why bytes are no name.
#[derive(Clone, Copy, Debug, PartialEq, Eq, Error)]
pub enum NameErr {
    /// An allocation failed.
    #[error("out of memory")]
    OutOfMemory,
    /// The bytes are no name.
    #[error("not a name")]
    BadName,
}

impl From<OutOfMemory> for NameErr {
    ghost use Rattle.std.specs.Prelude.{◌≡◌};
    ghost use Rattle.ext_text.specs.declared.name.NameErr.TheVariants as errors;

    ghost from_gives = { λ _ e. e ≡ errors.OutOfMemory };

    fn from(_failed: OutOfMemory) -> NameErr {
        NameErr::OutOfMemory
    }
}

/// The name of an entry: 1 to 255 bytes of UTF-8 without `/` and without control bytes, neither `.` nor `..`.
/// Contracts see it as its bytes.
#[derive(Debug, Drop)]
pub struct Name {
    bytes: SmallVec<u8, INLINE_BYTES>,
}

impl Model for Name {
    ghost use Rattle.std.specs.Prelude.{ℕ, List};
    ghost use Rattle.ext_text.specs.Name.{IsName};

    ghost Value = { List ℕ };

    ghost view = { λ n. n.bytes.items };

    ghost invariant = { λ n. IsName n.bytes.items };
}

// No control byte and no `/`.
fn is_name_byte(byte: u8) -> bool
    ensures { result ≡ is_name_byte byte }
{
    is_plain_byte(byte) && byte != b'/'
}

// The rule of names.
pub(crate) fn is_name(bytes: &[u8]) -> bool
    ensures { IsTrue result ↔ IsName bytes.now }
{
    has_name_shape(bytes) && is_name_text(bytes)
}

// What the rule says of a name's length and of its dots.
pub(crate) fn has_name_shape(bytes: &[u8]) -> bool
    ensures { IsTrue result ↔ HasNameShape bytes.now }
{
    !bytes.is_empty()
        && bytes.len() <= MOST_BYTES
        && bytes != b".".as_slice()
        && bytes != b"..".as_slice()
}

// Text of name bytes. Most names are ASCII, which is text by its bytes alone.
fn is_name_text(bytes: &[u8]) -> bool
    ensures { IsTrue result ↔ (AllPass is_name_byte bytes.now × IsUtf8 bytes.now) }
{
    is_ascii_name_text(bytes)
        || (bytes.iter().all(|byte| is_name_byte(*byte)) && str::from_utf8(bytes).is_ok())
}

// Name bytes of ASCII alone.
fn is_ascii_name_text(bytes: &[u8]) -> bool
    ensures { IsTrue result → (AllPass is_name_byte bytes.now × IsUtf8 bytes.now) }
{
    are_plain_ascii(bytes) && !bytes.contains(&b'/')
}

impl Name {
    /// The name of these bytes.
    ///
    /// # Errors
    /// - `BadName` exactly where the bytes are empty, more than 255, `.` or `..`, hold a `/`, a byte below 0x20 or
    ///   0x7F, or are no UTF-8.
    /// - `OutOfMemory`.
    pub fn read(alloc: Global, bytes: &[u8]) -> Result<Name, NameErr>
        ensures { ReadsName bytes.now result }
    {
        if !is_name(bytes) {
            return Err(NameErr::BadName);
        }
        Ok(Name {
            bytes: allocated(SmallVec::from_slice(alloc, bytes))?,
        })
    }

    /// The name of these bytes, which are one.
    ///
    /// # Errors
    /// `OutOfMemory` alone.
    pub fn of_bytes(alloc: Global, bytes: &[u8]) -> Result<Name, OutOfMemory>
        requires { IsName bytes.now }
        ensures { IfOk result (λ name. name ≡ bytes.now) }
    {
        Ok(Name {
            bytes: SmallVec::from_slice(alloc, bytes)?,
        })
    }

    /// The bytes.
    pub fn bytes(&self) -> &[u8]
        ensures same { result.now ≡ self.now }
        ensures name { IsName self.now }
    {
        self.bytes.as_slice()
    }

    /// An equal name.
    ///
    /// # Errors
    /// `OutOfMemory` alone.
    pub fn copy(&self) -> Result<Name, OutOfMemory>
        ensures { IfOk result (λ copy. copy ≡ self.now) }
    {
        Ok(Name {
            bytes: SmallVec::from_slice(*self.bytes.allocator(), self.bytes.as_slice())?,
        })
    }
}
