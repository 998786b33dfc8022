// The fields of lines, each read back exactly and printed with one space after it: what a reader takes is what is
// printed, and where it takes nothing, no value is printed so.
ghost use Rattle.std.specs.Prelude.{◌≡◌, ◌≢◌, ◌<◌, ◌≤◌, ◌↔◌, ◌++◌, [], ◌∷◌, ℕ, List, length, decimal, IsTrue, IfOk, MatchOption, OnErr, OnOk};
ghost use Rattle.hex.specs.Hex.{encode_lower};
ghost use Rattle.ext_attributes.specs.declared.attributes.Attributes.{Attributes};
ghost use Rattle.ext_attributes.specs.declared.owner.Owner.{Owner};
ghost use Rattle.ext_attributes.specs.Attributes.{IsAttributes, IsOfFile, IsOwner, OfFile, attributes_text, file_attributes_text, owned_number};
ghost use Rattle.ext_lines.specs.Prefix.{AppendsPrefix};
ghost use Rattle.ext_text.specs.Digest.{IsDigest};
ghost use Rattle.ext_tree.specs.Fields.{IsStamp, IsTarget, spaced, stamp_fields};
ghost use Rattle.ext_tree.specs.declared.stamp.Stamp.{Stamp};

use crate::stamp::Stamp;
use ext_attributes::{
    Attributes, FileAttributes, Owner, append_owned_number, read_attributes, read_file_attributes,
    read_owned_number,
};
use ext_lines::{
    OutOfMemory, append_decimal, is_plain, read_decimal, read_hex_digits, split_at_byte,
};
use ext_text::Digest;
use std::alloc::Global;
use std::str;

/// The most bytes of a file.
const MOST_SIZE: u64 = 1_073_741_824;

/// The hexadecimal digits of a digest.
const DIGEST_DIGITS: usize = 64;

/// The most bytes of a link's target.
const MOST_TARGET: usize = 4096;

/// The attributes of a directory that a text begins with, before a space, and what follows the space; `None` exactly where
/// it begins with none.
pub(crate) fn split_attributes(text: &[u8]) -> Option<(Attributes, &[u8])>
    ensures { MatchOption result
        ((a : Attributes) (rest : List ℕ) → IsAttributes a → text.now ≢ attributes_text a ++ 32 ∷ rest)
        (λ r. IsAttributes r.0 × (text.now ≡ attributes_text r.0 ++ 32 ∷ r.1.now)) }
{
    let (field, rest) = split_at_byte(text, b' ')?;
    Some((read_attributes(field)?, rest))
}

/// The attributes of a file that a text begins with, before a space, and what follows the space; `None` exactly where it
/// begins with none.
///
/// # Errors
/// `OutOfMemory` alone.
pub(crate) fn split_file_attributes(
    alloc: Global,
    text: &[u8],
) -> Result<Option<(FileAttributes, &[u8])>, OutOfMemory>
    ensures { IfOk result (λ found. MatchOption found
        ((a : OfFile) (rest : List ℕ) → IsOfFile a → text.now ≢ file_attributes_text a ++ 32 ∷ rest)
        (λ r. IsOfFile r.0 × (text.now ≡ file_attributes_text r.0 ++ 32 ∷ r.1.now))) }
{
    let Some((field, rest)) = split_at_byte(text, b' ') else {
        return Ok(None);
    };
    match read_file_attributes(alloc, field)? {
        None => Ok(None),
        Some(attributes) => Ok(Some((attributes, rest))),
    }
}

/// The number of at most `most`, in decimal digits, that a text begins with, before a space, and what follows the space;
/// `None` exactly where it begins with no such number.
pub fn split_number(text: &[u8], most: u64) -> Option<(u64, &[u8])>
    ensures { MatchOption result
        ((n : ℕ) (rest : List ℕ) → n ≤ most → text.now ≢ decimal n ++ 32 ∷ rest)
        (λ r. (r.0 ≤ most) × (text.now ≡ decimal r.0 ++ 32 ∷ r.1.now)) }
{
    let (field, rest) = split_at_byte(text, b' ')?;
    Some((read_decimal(field, most)?, rest))
}

/// The digest in lower-case hexadecimal digits that a text begins with, before a space, and what follows the space;
/// `None` exactly where it begins with no digest.
pub fn split_digest(text: &[u8]) -> Option<(Digest, &[u8])>
    ensures { MatchOption result
        ((ds : List ℕ) (rest : List ℕ) → IsDigest ds → text.now ≢ encode_lower ds ++ 32 ∷ rest)
        (λ r. IsDigest r.0.0 × (text.now ≡ encode_lower r.0.0 ++ 32 ∷ r.1.now)) }
{
    let (field, rest) = split_bytes(text, DIGEST_DIGITS)?;
    Some((Digest(read_hex_digits(field)?), rest))
}

/// The stamp whose fields a text begins with, and what follows them; `None` exactly where it begins with those of no
/// stamp that a line holds.
pub fn split_stamp(text: &[u8]) -> Option<(Stamp, &[u8])>
    ensures { MatchOption result
        ((s : Stamp) (rest : List ℕ) → IsStamp s → text.now ≢ spaced (stamp_fields s) rest)
        (λ r. IsStamp r.0 × (text.now ≡ spaced (stamp_fields r.0) r.1.now)) }
{
    let (size, rest) = split_number(text, MOST_SIZE)?;
    let (digest, rest) = split_digest(rest)?;
    Some((Stamp { size, digest }, rest))
}

// So many bytes, one space, and what follows.
fn split_bytes(text: &[u8], count: usize) -> Option<(&[u8], &[u8])>
    ensures { MatchOption result
        ((field : List ℕ) (rest : List ℕ) → length field ≡ count → text.now ≢ field ++ 32 ∷ rest)
        (λ r. (length r.0.now ≡ count) × (text.now ≡ r.0.now ++ 32 ∷ r.1.now)) }
{
    if text.len() < count {
        return None;
    }
    let (field, rest) = text.split_at(count);
    match rest {
        [b' ', rest @ ..] => Some((field, rest)),
        _ => None,
    }
}

// The rule of targets.
fn is_target(bytes: &[u8]) -> bool
    ensures { IsTrue result ↔ IsTarget bytes.now }
{
    !bytes.is_empty()
        && bytes.len() <= MOST_TARGET
        && is_plain(bytes)
        && str::from_utf8(bytes).is_ok()
}

// The length and the owner of a target, the target, a space after each field, and what follows.
pub(crate) fn split_target(text: &[u8]) -> Option<(Owner, &[u8], &[u8])>
    ensures { MatchOption result
        ((o : Owner) (t : List ℕ) (rest : List ℕ) → IsOwner o → IsTarget t → text.now ≢ owned_number (length t) o ++ 32 ∷ (t ++ 32 ∷ rest))
        (λ r. IsOwner r.0 × IsTarget r.1.now × (text.now ≡ owned_number (length r.1.now) r.0 ++ 32 ∷ (r.1.now ++ 32 ∷ r.2.now))) }
{
    let (count, owner, rest) = split_owned(text)?;
    let (target, rest) = split_bytes(rest, count as usize)?;
    if is_target(target) {
        Some((owner, target, rest))
    } else {
        None
    }
}

// The length of a target with the owner, before a space, and what follows the space.
fn split_owned(text: &[u8]) -> Option<(u64, Owner, &[u8])>
    ensures { MatchOption result
        ((n : ℕ) (o : Owner) (rest : List ℕ) → n ≤ 4096 → IsOwner o → text.now ≢ owned_number n o ++ 32 ∷ rest)
        (λ r. (r.0 ≤ 4096) × IsOwner r.1 × (text.now ≡ owned_number r.0 r.1 ++ 32 ∷ r.2.now)) }
{
    let (field, rest) = split_at_byte(text, b' ')?;
    let (number, owner) = read_owned_number(field, MOST_TARGET as u64)?;
    Some((number, owner, rest))
}

/// Adds the attributes of a directory to a text, as one field, and a space.
///
/// # Errors
/// `OutOfMemory`. A prefix of these bytes may have been added.
pub(crate) fn append_attributes(
    text: &mut Vec<u8>,
    attributes: &Attributes,
) -> Result<(), OutOfMemory>
    ensures ok { OnOk result (text.new.items ≡ text.old.items ++ (attributes_text attributes.now ++ 32 ∷ [])) }
    ensures err { OnErr result (AppendsPrefix text.old.items text.new.items (attributes_text attributes.now ++ 32 ∷ [])) }
{
    ext_attributes::append_attributes(text, attributes)?;
    append_bytes(text, b" ")
}

/// Adds the attributes of a file to a text, as one field, and a space.
///
/// # Errors
/// `OutOfMemory`. A prefix of these bytes may have been added.
pub(crate) fn append_file_attributes(
    text: &mut Vec<u8>,
    file: &FileAttributes,
) -> Result<(), OutOfMemory>
    ensures ok { OnOk result (text.new.items ≡ text.old.items ++ (file_attributes_text file.now ++ 32 ∷ [])) }
    ensures err { OnErr result (AppendsPrefix text.old.items text.new.items (file_attributes_text file.now ++ 32 ∷ [])) }
{
    ext_attributes::append_file_attributes(text, file)?;
    append_bytes(text, b" ")
}

/// Adds a number to a text, in decimal digits, and a space.
///
/// # Errors
/// `OutOfMemory`. A prefix of these bytes may have been added.
pub fn append_number(text: &mut Vec<u8>, number: u64) -> Result<(), OutOfMemory>
    ensures ok { OnOk result (text.new.items ≡ text.old.items ++ (decimal number ++ 32 ∷ [])) }
    ensures err { OnErr result (AppendsPrefix text.old.items text.new.items (decimal number ++ 32 ∷ [])) }
{
    append_decimal(text, number)?;
    append_bytes(text, b" ")
}

/// Adds a digest to a text, in lower-case hexadecimal digits, and a space.
///
/// # Errors
/// `OutOfMemory`. A prefix of these bytes may have been added.
pub fn append_digest(text: &mut Vec<u8>, digest: &Digest) -> Result<(), OutOfMemory>
    ensures ok { OnOk result (text.new.items ≡ text.old.items ++ (encode_lower digest.now.0 ++ 32 ∷ [])) }
    ensures err { OnErr result (AppendsPrefix text.old.items text.new.items (encode_lower digest.now.0 ++ 32 ∷ [])) }
{
    append_field(text, &digest.digits())
}

/// Adds the fields of a stamp to a text, a space after each.
///
/// # Errors
/// `OutOfMemory`. A prefix of these bytes may have been added.
pub fn append_stamp(text: &mut Vec<u8>, stamp: &Stamp) -> Result<(), OutOfMemory>
    ensures ok { OnOk result (text.new.items ≡ text.old.items ++ spaced (stamp_fields stamp.now) []) }
    ensures err { OnErr result (AppendsPrefix text.old.items text.new.items (spaced (stamp_fields stamp.now) [])) }
{
    append_number(text, stamp.size)?;
    append_digest(text, &stamp.digest)
}

// Adds the length of a target with its owner and the target, a space after each.
pub(crate) fn append_target(
    text: &mut Vec<u8>,
    owner: Owner,
    target: &[u8],
) -> Result<(), OutOfMemory>
    ensures ok { OnOk result (text.new.items ≡ text.old.items ++ spaced (owned_number (length target.now) owner ∷ target.now ∷ []) []) }
    ensures err { OnErr result (AppendsPrefix text.old.items text.new.items
        (spaced (owned_number (length target.now) owner ∷ target.now ∷ []) [])) }
{
    append_owned(text, target.len() as u64, owner)?;
    append_field(text, target)
}

// Adds a number with an owner, and a space.
fn append_owned(text: &mut Vec<u8>, number: u64, owner: Owner) -> Result<(), OutOfMemory>
    ensures ok { OnOk result (text.new.items ≡ text.old.items ++ (owned_number number owner ++ 32 ∷ [])) }
    ensures err { OnErr result (AppendsPrefix text.old.items text.new.items (owned_number number owner ++ 32 ∷ [])) }
{
    append_owned_number(text, number, owner)?;
    append_bytes(text, b" ")
}

// Adds a field and a space.
fn append_field(text: &mut Vec<u8>, field: &[u8]) -> Result<(), OutOfMemory>
    ensures ok { OnOk result (text.new.items ≡ text.old.items ++ (field.now ++ 32 ∷ [])) }
    ensures err { OnErr result (AppendsPrefix text.old.items text.new.items (field.now ++ 32 ∷ [])) }
{
    append_bytes(text, field)?;
    append_bytes(text, b" ")
}

// Adds bytes, or nothing.
pub(crate) fn append_bytes(text: &mut Vec<u8>, bytes: &[u8]) -> Result<(), OutOfMemory>
    ensures ok { OnOk result (text.new.items ≡ text.old.items ++ bytes.now) }
    ensures err { OnErr result (AppendsPrefix text.old.items text.new.items bytes.now) }
{
    text.extend_from_slice(bytes)?;
    Ok(())
}
