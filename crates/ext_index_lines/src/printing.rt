// Lines are printed one by one, each with its newline.
ghost use Rattle.std.specs.Prelude.{◌≡◌, ◌++◌, ◌∷◌, [], ℕ, List, Bool, true, codes, decimal, length, OnOk};
ghost use Rattle.std.specs.List.{flat_map};
ghost use Rattle.hex.specs.Hex.{encode_lower};
ghost use Rattle.ext_lines.specs.Numbers.{octal};
ghost use Rattle.ext_text.specs.Path.{path_text};
ghost use Rattle.ext_attributes.specs.Attributes.{attributes_text, capability_text, file_attributes_text, flag, marks_text, owned_number};
ghost use Rattle.ext_tree.specs.Fields.{spaced, stamp_fields};
ghost use Rattle.ext_tree.specs.EntryLine.{entry_fields};
ghost use Rattle.ext_index_lines.specs.Homed.{file_digits, home_fields, homed_fields, homed_form};
ghost use Rattle.ext_index_lines.specs.Homes.{listed_entry, line_of_entry};
ghost use Rattle.ext_index_lines.specs.Lines.{attachment_line, header_line, hierarchy_line, host_line, item_line, manifest_line, number_line, path_line, worded};

use crate::homed::{Homed, digits_of, listed_file};
use crate::out::Out;
use ext_attributes::{Attributes, Capability, FileAttributes, Owner};
use ext_host::{Held, Home};
use ext_text::{Arch, Digest, Extension, Name, Path, Scope};
use ext_tree::{Entry, Stamp};
use itoa::Buffer;

/// Prints a line.
///
/// # Errors
/// Where the bytes are not taken.
pub fn put_line<O: Out>(out: &mut O, line: &[u8]) -> Result<(), O::Refused>
    ensures { (before : List ℕ) → O.holds out.old before → OnOk result (O.holds out.new (before ++ (line.now ++ 10 ∷ []))) }
{
    out.put(line)?;
    out.put_byte(b'\n')
}

/// Prints a line of a word and what follows it.
///
/// # Errors
/// Where the bytes are not taken.
pub fn put_worded<O: Out>(out: &mut O, word: &[u8], rest: &[u8]) -> Result<(), O::Refused>
    ensures { (before : List ℕ) → O.holds out.old before → OnOk result (O.holds out.new (before ++ (worded word.now rest.now ++ 10 ∷ []))) }
{
    out.put(word)?;
    out.put_byte(b' ')?;
    out.put(rest)?;
    out.put_byte(b'\n')
}

/// Prints a line of a word and a number.
///
/// # Errors
/// Where the bytes are not taken.
pub fn put_number<O: Out>(out: &mut O, word: &[u8], number: u64) -> Result<(), O::Refused>
    ensures { (before : List ℕ) → O.holds out.old before → OnOk result (O.holds out.new
        (before ++ (number_line word.now number ++ 10 ∷ []))) }
{
    let mut buffer = Buffer::new();
    put_worded(out, word, buffer.format(number).as_bytes())
}

/// Prints a line of a word and a path.
///
/// # Errors
/// Where the bytes are not taken.
pub fn put_path<O: Out>(out: &mut O, word: &[u8], path: &Path) -> Result<(), O::Refused>
    ensures { (before : List ℕ) → O.holds out.old before → OnOk result (O.holds out.new
        (before ++ (path_line word.now path.now ++ 10 ∷ []))) }
{
    out.put(word)?;
    out.put_byte(b' ')?;
    put_text(out, path)?;
    out.put_byte(b'\n')
}

/// Prints the line `host`.
///
/// # Errors
/// Where the bytes are not taken.
pub fn put_host<O: Out>(out: &mut O, arch: Arch, scope: Scope) -> Result<(), O::Refused>
    ensures { (before : List ℕ) → O.holds out.old before → OnOk result (O.holds out.new (before ++ (host_line arch scope ++ 10 ∷ []))) }
{
    out.put(b"host ")?;
    put_worded(out, arch.name().as_bytes(), scope.name().as_bytes())
}

/// Prints the line `h` of a hierarchy.
///
/// # Errors
/// Where the bytes are not taken.
pub fn put_hierarchy<O: Out>(out: &mut O, class: Extension, name: &Name) -> Result<(), O::Refused>
    ensures { (before : List ℕ) → O.holds out.old before → OnOk result (O.holds out.new
        (before ++ (hierarchy_line class name.now ++ 10 ∷ []))) }
{
    out.put(b"h ")?;
    put_worded(out, class.name().as_bytes(), name.bytes())
}

/// Prints the line `a` of an attachment.
///
/// # Errors
/// Where the bytes are not taken.
pub fn put_attachment<O: Out>(out: &mut O, runtime: bool, count: u64) -> Result<(), O::Refused>
    ensures { (before : List ℕ) → O.holds out.old before → OnOk result (O.holds out.new
        (before ++ (attachment_line runtime count ++ 10 ∷ []))) }
{
    if runtime {
        put_number(out, b"a run", count)
    } else {
        put_number(out, b"a etc", count)
    }
}

/// Prints the line `k` of a kept manifest.
///
/// # Errors
/// Where the bytes are not taken.
pub fn put_manifest<O: Out>(out: &mut O, count: u64, path: &Path) -> Result<(), O::Refused>
    ensures { (before : List ℕ) → O.holds out.old before → OnOk result (O.holds out.new
        (before ++ (manifest_line count path.now ++ 10 ∷ []))) }
{
    out.put(b"k ")?;
    let mut buffer = Buffer::new();
    put_path(out, buffer.format(count).as_bytes(), path)
}

/// Prints the line `m` of an item.
///
/// # Errors
/// Where the bytes are not taken.
pub fn put_item<O: Out>(out: &mut O, digest: &Digest, path: &Path) -> Result<(), O::Refused>
    ensures { (before : List ℕ) → O.holds out.old before → OnOk result (O.holds out.new
        (before ++ (item_line digest.now.0 path.now ++ 10 ∷ []))) }
{
    out.put(b"m ")?;
    put_path(out, digest.digits().as_slice(), path)
}

// Prints the text of a path.
fn put_text<O: Out>(out: &mut O, path: &Path) -> Result<(), O::Refused>
    ensures { (before : List ℕ) → O.holds out.old before → OnOk result (O.holds out.new (before ++ path_text path.now)) }
{
    let text = path.text();
    out.put(text)
}

/// Prints the line of an entry. A file that is not kept is listed with a home in this generation.
///
/// # Errors
/// Where the bytes are not taken.
pub fn put_entry<O: Out>(
    out: &mut O,
    generation: u32,
    path: &Path,
    entry: &Entry<Held>,
) -> Result<(), O::Refused>
    ensures { (before : List ℕ) → O.holds out.old before → OnOk result (O.holds out.new
        (before ++ (line_of_entry generation (path.now, entry.now) ++ 10 ∷ []))) }
{
    put_fields(out, generation, entry)?;
    put_text(out, path)?;
    out.put_byte(b'\n')
}

// Prints the fields of an entry, a space after each.
fn put_fields<O: Out>(out: &mut O, generation: u32, entry: &Entry<Held>) -> Result<(), O::Refused>
    ensures { (before : List ℕ) → O.holds out.old before → OnOk result (O.holds out.new
        (before ++ spaced (entry_fields homed_form (listed_entry generation entry.now)) [])) }
{
    match entry {
        Entry::Dir(attributes) => put_directory(out, b"d ", attributes),
        Entry::Opaque(attributes) => put_directory(out, b"o ", attributes),
        Entry::File(attributes, held) => put_file(out, attributes, listed_file(generation, held)),
        Entry::Link(owner, target) => put_link(out, *owner, target.bytes()),
        Entry::Hide => out.put(b"w "),
    }
}

// Prints a kind with its space, the attributes of a directory and a space.
fn put_directory<O: Out>(
    out: &mut O,
    kind: &[u8],
    attributes: &Attributes,
) -> Result<(), O::Refused>
    ensures { (before : List ℕ) → O.holds out.old before → OnOk result (O.holds out.new
        (before ++ (kind.now ++ (attributes_text attributes.now ++ 32 ∷ [])))) }
{
    out.put(kind)?;
    put_octal(out, u32::from(attributes.mode.bits()))?;
    put_owner(out, attributes.owner)?;
    out.put_byte(b' ')
}

// Prints the kind of a file with its space, its attributes and a space.
fn put_file_attributes<O: Out>(out: &mut O, file: &FileAttributes) -> Result<(), O::Refused>
    ensures { (before : List ℕ) → O.holds out.old before → OnOk result (O.holds out.new
        (before ++ (102 ∷ 32 ∷ (file_attributes_text file.now ++ 32 ∷ [])))) }
{
    let attributes = file.attributes();
    let capability = file.capability();
    out.put(b"f ")?;
    put_octal(out, u32::from(attributes.mode.bits()))?;
    put_marks(out, attributes.owner, &capability)?;
    out.put_byte(b' ')
}

// Prints what is to be told of an owner and a capability.
fn put_marks<O: Out>(
    out: &mut O,
    owner: Owner,
    capability: &Option<Capability>,
) -> Result<(), O::Refused>
    ensures { (before : List ℕ) → O.holds out.old before → OnOk result (O.holds out.new (before ++ marks_text owner capability.now)) }
{
    match capability {
        None => put_owner(out, owner),
        Some(capability) => put_both(out, owner, capability),
    }
}

// Prints an owner, where it is another than root.
fn put_owner<O: Out>(out: &mut O, owner: Owner) -> Result<(), O::Refused>
    ensures { (before : List ℕ) → O.holds out.old before → OnOk result (O.holds out.new (before ++ marks_text owner None)) }
{
    if owner.is_root() {
        return Ok(());
    }
    put_number_after_colon(out, u64::from(owner.user))?;
    put_number_after_colon(out, u64::from(owner.group))
}

// Prints an owner and a capability.
fn put_both<O: Out>(out: &mut O, owner: Owner, capability: &Capability) -> Result<(), O::Refused>
    ensures { (before : List ℕ) → O.holds out.old before → OnOk result (O.holds out.new
        (before ++ marks_text owner (Some capability.now))) }
{
    put_number_after_colon(out, u64::from(owner.user))?;
    put_number_after_colon(out, u64::from(owner.group))?;
    put_capability(out, capability)
}

// Prints a colon and a capability.
fn put_capability<O: Out>(out: &mut O, capability: &Capability) -> Result<(), O::Refused>
    ensures { (before : List ℕ) → O.holds out.old before → OnOk result (O.holds out.new (before ++ 58 ∷ capability_text capability.now)) }
{
    put_number_after_colon(out, flag_of(capability.effective))?;
    put_number_after_colon(out, capability.permitted)?;
    put_number_after_colon(out, capability.inheritable)?;
    put_number_after_colon(out, u64::from(capability.root))
}

// A flag as a number.
fn flag_of(set: bool) -> u64
    ensures { result ≡ flag set }
{
    if set { 1 } else { 0 }
}

// Prints a colon and the decimal digits of a number.
fn put_number_after_colon<O: Out>(out: &mut O, number: u64) -> Result<(), O::Refused>
    ensures { (before : List ℕ) → O.holds out.old before → OnOk result (O.holds out.new (before ++ 58 ∷ decimal number)) }
{
    let mut buffer = Buffer::new();
    out.put_byte(b':')?;
    out.put(buffer.format(number).as_bytes())
}

// Prints the octal digits of a number.
fn put_octal<O: Out>(out: &mut O, number: u32) -> Result<(), O::Refused>
    ensures { (before : List ℕ) → O.holds out.old before → OnOk result (O.holds out.new (before ++ octal number)) }
{
    if number >= 8 {
        put_octal(out, number / 8)?;
    }
    out.put_byte(b'0' + (number % 8) as u8)
}

// Prints the fields of a file.
fn put_file<O: Out>(out: &mut O, file: &FileAttributes, homed: Homed) -> Result<(), O::Refused>
    ensures { (before : List ℕ) → O.holds out.old before → OnOk result (O.holds out.new
        (before ++ (102 ∷ 32 ∷ (file_attributes_text file.now ++ 32 ∷ spaced (homed_fields homed) [])))) }
{
    put_file_attributes(out, file)?;
    put_stamp(out, &homed.stamp)?;
    put_home(out, homed.home)
}

// Prints the fields of a stamp.
fn put_stamp<O: Out>(out: &mut O, stamp: &Stamp) -> Result<(), O::Refused>
    ensures { (before : List ℕ) → O.holds out.old before → OnOk result (O.holds out.new (before ++ spaced (stamp_fields stamp.now) [])) }
{
    put_decimal(out, stamp.size)?;
    out.put(stamp.digest.digits().as_slice())?;
    out.put_byte(b' ')
}

// Prints the fields of a home.
fn put_home<O: Out>(out: &mut O, home: Home) -> Result<(), O::Refused>
    ensures { (before : List ℕ) → O.holds out.old before → OnOk result (O.holds out.new (before ++ spaced (home_fields home) [])) }
{
    put_decimal(out, u64::from(home.generation))?;
    out.put(digits_of(home.file).as_slice())?;
    out.put_byte(b' ')
}

// Prints the fields of a link.
fn put_link<O: Out>(out: &mut O, owner: Owner, target: &[u8]) -> Result<(), O::Refused>
    ensures { (before : List ℕ) → O.holds out.old before → OnOk result (O.holds out.new
        (before ++ (108 ∷ 32 ∷ spaced (owned_number (length target.now) owner ∷ target.now ∷ []) []))) }
{
    out.put(b"l ")?;
    put_owned(out, target.len() as u64, owner)?;
    out.put(target)?;
    out.put_byte(b' ')
}

// Prints the decimal digits of a number, its owner and a space.
fn put_owned<O: Out>(out: &mut O, number: u64, owner: Owner) -> Result<(), O::Refused>
    ensures { (before : List ℕ) → O.holds out.old before → OnOk result (O.holds out.new
        (before ++ (owned_number number owner ++ 32 ∷ []))) }
{
    let mut buffer = Buffer::new();
    out.put(buffer.format(number).as_bytes())?;
    put_owner(out, owner)?;
    out.put_byte(b' ')
}

// Prints the decimal digits of a number and a space.
fn put_decimal<O: Out>(out: &mut O, number: u64) -> Result<(), O::Refused>
    ensures { (before : List ℕ) → O.holds out.old before → OnOk result (O.holds out.new (before ++ (decimal number ++ 32 ∷ []))) }
{
    let mut buffer = Buffer::new();
    out.put(buffer.format(number).as_bytes())?;
    out.put_byte(b' ')
}
