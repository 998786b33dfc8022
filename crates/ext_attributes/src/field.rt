// The fields of directories, files and links, read back exactly and printed.
ghost use Rattle.std.specs.Prelude.{◌≡◌, ◌≢◌, ◌≤◌, ◌++◌, ℕ, None, IfOk, MatchOption, OnErr, OnOk};
ghost use Rattle.ext_lines.specs.Numbers.{octal};
ghost use Rattle.ext_lines.specs.Prefix.{AppendsPrefix};
ghost use Rattle.ext_attributes.specs.declared.owner.Owner.{Owner};
ghost use Rattle.ext_attributes.specs.declared.attributes.Attributes.{Attributes};
ghost use Rattle.ext_attributes.specs.Attributes.{IsAttributes, IsOfFile, IsOwner, OfFile, attributes_text, file_attributes_text, owned_number, with_capability};

use crate::attributes::Attributes;
use crate::capability::Capability;
use crate::file_attributes::FileAttributes;
use crate::marks::{append_marks, split_marks, split_owner};
use crate::owner::Owner;
use ext_lines::{OutOfMemory, append_decimal, append_octal, read_decimal, read_octal};
use ext_text::Mode;
use std::alloc::Global;

/// The highest mode.
const MOST_MODE: u64 = 0o7777;

/// The attributes of a directory that a field writes; `None` exactly where it writes none.
pub fn read_attributes(field: &[u8]) -> Option<Attributes>
    ensures { MatchOption result
        ((a : Attributes) → IsAttributes a → field.now ≢ attributes_text a)
        (λ a. IsAttributes a × (field.now ≡ attributes_text a)) }
{
    match mode_of(field) {
        Some(mode) => Some(Attributes::of_mode(mode)),
        None => owned_attributes(field),
    }
}

// The attributes of a directory, read by their parts.
fn owned_attributes(field: &[u8]) -> Option<Attributes>
    ensures { MatchOption result
        ((a : Attributes) → IsAttributes a → field.now ≢ attributes_text a)
        (λ a. IsAttributes a × (field.now ≡ attributes_text a)) }
{
    let (first, owner) = split_owner(field)?;
    let mode = mode_of(first)?;
    Some(Attributes { mode, owner })
}

/// The attributes of a file that a field writes; `None` exactly where it writes none.
///
/// # Errors
/// `OutOfMemory` alone.
pub fn read_file_attributes(
    alloc: Global,
    field: &[u8],
) -> Result<Option<FileAttributes>, OutOfMemory>
    ensures { IfOk result (λ found. MatchOption found
        ((a : OfFile) → IsOfFile a → field.now ≢ file_attributes_text a)
        (λ a. IsOfFile a × (field.now ≡ file_attributes_text a))) }
{
    if let Some(mode) = mode_of(field) {
        return Ok(Some(FileAttributes::of_mode(mode)));
    }
    let Some((attributes, capability)) = file_parts(field) else {
        return Ok(None);
    };
    let file = FileAttributes::new(alloc, attributes, capability)?;
    Ok(Some(file))
}

// The parts of a file's attributes.
fn file_parts(field: &[u8]) -> Option<(Attributes, Option<Capability>)>
    ensures { MatchOption result
        ((a : OfFile) → IsOfFile a → field.now ≢ file_attributes_text a)
        (λ r. IsOfFile (with_capability r.0 r.1) × (field.now ≡ file_attributes_text (with_capability r.0 r.1))) }
{
    let (first, owner, capability) = split_marks(field)?;
    let mode = mode_of(first)?;
    Some((Attributes { mode, owner }, capability))
}

/// The number of at most `most` with an owner that a field writes; `None` exactly where it writes none.
pub fn read_owned_number(field: &[u8], most: u64) -> Option<(u64, Owner)>
    ensures { MatchOption result
        ((n : ℕ) (o : Owner) → n ≤ most → IsOwner o → field.now ≢ owned_number n o)
        (λ r. (r.0 ≤ most) × IsOwner r.1 × (field.now ≡ owned_number r.0 r.1)) }
{
    match read_decimal(field, most) {
        Some(number) => Some((number, Owner::root())),
        None => told_number(field, most),
    }
}

// The number and the owner, read by their parts.
fn told_number(field: &[u8], most: u64) -> Option<(u64, Owner)>
    ensures { MatchOption result
        ((n : ℕ) (o : Owner) → n ≤ most → IsOwner o → field.now ≢ owned_number n o)
        (λ r. (r.0 ≤ most) × IsOwner r.1 × (field.now ≡ owned_number r.0 r.1)) }
{
    let (first, owner) = split_owner(field)?;
    let number = read_decimal(first, most)?;
    Some((number, owner))
}

// The mode that a field writes in octal digits.
fn mode_of(field: &[u8]) -> Option<Mode>
    ensures { MatchOption result
        ((m : ℕ) → m ≤ 4095 → field.now ≢ octal m)
        (λ m. (m ≤ 4095) × (field.now ≡ octal m)) }
{
    let bits = read_octal(field, MOST_MODE)?;
    Mode::new(bits as u16)
}

/// Adds the field of a directory to a text.
///
/// # Errors
/// `OutOfMemory`. A prefix of the field may have been added.
pub fn append_attributes(text: &mut Vec<u8>, attributes: &Attributes) -> Result<(), OutOfMemory>
    ensures ok { OnOk result (text.new.items ≡ text.old.items ++ attributes_text attributes.now) }
    ensures err { OnErr result (AppendsPrefix text.old.items text.new.items (attributes_text attributes.now)) }
{
    append_mode(text, attributes.mode)?;
    if attributes.is_plain() {
        return Ok(());
    }
    append_marks(text, attributes.owner, &None)
}

/// Adds the field of a file to a text.
///
/// # Errors
/// `OutOfMemory`. A prefix of the field may have been added.
pub fn append_file_attributes(text: &mut Vec<u8>, file: &FileAttributes) -> Result<(), OutOfMemory>
    ensures ok { OnOk result (text.new.items ≡ text.old.items ++ file_attributes_text file.now) }
    ensures err { OnErr result (AppendsPrefix text.old.items text.new.items (file_attributes_text file.now)) }
{
    let attributes = file.attributes();
    append_mode(text, attributes.mode)?;
    if file.is_plain() {
        return Ok(());
    }
    append_marks(text, attributes.owner, &file.capability())
}

/// Adds a number with an owner to a text, the field of a link.
///
/// # Errors
/// `OutOfMemory`. A prefix of the field may have been added.
pub fn append_owned_number(text: &mut Vec<u8>, number: u64, owner: Owner) -> Result<(), OutOfMemory>
    ensures ok { OnOk result (text.new.items ≡ text.old.items ++ owned_number number owner) }
    ensures err { OnErr result (AppendsPrefix text.old.items text.new.items (owned_number number owner)) }
{
    append_decimal(text, number)?;
    if owner.is_root() {
        return Ok(());
    }
    append_marks(text, owner, &None)
}

// Adds the octal digits of a mode.
fn append_mode(text: &mut Vec<u8>, mode: Mode) -> Result<(), OutOfMemory>
    ensures ok { OnOk result (text.new.items ≡ text.old.items ++ octal mode) }
    ensures err { OnErr result (AppendsPrefix text.old.items text.new.items (octal mode)) }
{
    append_octal(text, u64::from(mode.bits()))
}
