ghost use Rattle.std.specs.Prelude.{◌≡◌, ◌++◌, codes, decimal, IfOk, OnOk};
ghost use Rattle.ext_text.specs.Path.{path_text};
ghost use Rattle.ext_cmd.specs.Refusals.{place_word, refusal_details, refusal_line, refusal_number, stamp_words, which_word};
ghost use Rattle.ext_cmd.specs.Refusals.{feature_fault_word, file_fault_words, transfer_fault_word};

use crate::appending::{append_numbered, append_placed, append_stamp, append_words};
use crate::extension_refusals::{append_no_extension, append_unfit};
use ext_lines::append_decimal;
use ext_portext::ExtWhy;
use ext_text::{Name, OutOfMemory, Path, Text, Which};
use ext_transfer::{FeatureFault, TransferFault};
use ext_tree::Stamp;
use ext_units::Image;
use std::alloc::Global;

/// Why a command was refused.
#[derive(Drop)]
pub enum Refusal {
    /// There is no store (number 1).
    NoStore,
    /// There is a store already (number 2).
    StoreExists,
    /// The class is merged already (number 3).
    Merged,
    /// A path that would be written or cut is in, at or above a merged hierarchy (number 4).
    ReadOnly {
        /// The least such path.
        path: Path,
    },
    /// The host has no release file (number 5).
    NoHostRelease,
    /// The host's release file is faulty (number 6).
    BadHostRelease {
        /// Its first faulty line, counted from 1.
        line: u64,
    },
    /// A limit would be passed (number 7).
    Limit {
        /// Which limit.
        which: Which,
    },
    /// Nothing stands at the path (number 8).
    NoEntry {
        /// The path.
        path: Path,
    },
    /// What stands at the path is no directory (number 9).
    NotDirectory {
        /// The path.
        path: Path,
    },
    /// What stands at the path is no file (number 10).
    NotFile {
        /// The path.
        path: Path,
    },
    /// There is no such image of a portable service; a mask, and an image in a file, is none (number 11).
    NoSuchImage,
    /// The image has no release file (number 12).
    NotPortable,
    /// The image's release file is faulty (number 13).
    BadRelease {
        /// Its first faulty line, counted from 1.
        line: u64,
    },
    /// The image does not allow units with this prefix (number 14).
    PrefixForbidden {
        /// The first prefix that it does not allow, which may be empty.
        prefix: Text,
    },
    /// The image has no unit with one of the prefixes (number 15).
    NoUnits,
    /// There is no profile of the name (number 16).
    NoProfile,
    /// Something stands at a path at which a unit or its directory of drop-ins would be put (number 17).
    UnitExists {
        /// The least such path.
        path: Path,
    },
    /// An image of this name is attached already (number 18).
    AlreadyAttached,
    /// No image of this name is attached (number 19).
    NotAttached,
    /// No transfer file counts (number 20).
    NoTransfers,
    /// A transfer file is faulty (number 21).
    BadTransfer {
        /// The line of its first fault, counted from 1; 0 where a key is absent.
        line: u64,
        /// What is wrong.
        why: TransferFault,
        /// The name of the file.
        file: Name,
    },
    /// A manifest in the depot is faulty (number 22).
    BadManifest {
        /// Its first faulty line, counted from 1.
        line: u64,
        /// Its path in the depot.
        path: Path,
    },
    /// A tree text is faulty (number 23).
    BadTree {
        /// The first faulty line, counted from 1.
        line: u64,
        /// The text's path in the depot; none where it did not come from there.
        path: Option<Path>,
    },
    /// The depot has no such file (number 24).
    NotInDepot {
        /// The file's path in the depot.
        path: Path,
    },
    /// A file of the depot has other bytes than listed (number 25).
    Mismatch {
        /// The file's path in the depot.
        path: Path,
        /// The stamp that is listed.
        listed: Stamp,
        /// The stamp of the bytes that were read.
        found: Stamp,
    },
    /// No available version is newer than each that is installed (number 26).
    NoneNewer,
    /// The version that is asked for is neither installed nor available (number 27).
    NoSuchVersion {
        /// The version.
        version: Text,
    },
    /// More versions of a target are protected than may stay (number 28).
    NoRoom {
        /// How many that the target has are protected, without the one that is to be installed.
        count: u64,
        /// The name of the transfer file.
        file: Name,
    },
    /// Something that would be written or removed is in the way of something else (number 29).
    Clash {
        /// The least path of such a thing.
        path: Path,
    },
    /// There is no such extension of a portable service; a mask, and an image in a file, is none (number 30).
    NoExtension {
        /// The extension, as it was given.
        extension: Image,
    },
    /// An extension does not fit the image (number 31).
    Extension {
        /// The extension, as it was given.
        extension: Image,
        /// Why it does not.
        why: ExtWhy,
    },
    /// A feature file is faulty (number 32).
    BadFeature {
        /// The line of its first fault, counted from 1.
        line: u64,
        /// What is wrong.
        why: FeatureFault,
        /// The name of the file.
        file: Name,
    },
    /// There are transfers, and none is on (number 33).
    NoneOn,
    /// There is no such mark (number 37).
    NoMark {
        /// The number of the generation that was asked for.
        generation: u32,
    },
}

/// The number of a refusal.
pub fn number(refusal: &Refusal) -> u32
    ensures { result ≡ refusal_number refusal.now }
{
    match refusal {
        Refusal::NoStore => 1,
        Refusal::StoreExists => 2,
        Refusal::Merged => 3,
        Refusal::ReadOnly { .. } => 4,
        Refusal::NoHostRelease => 5,
        Refusal::BadHostRelease { .. } => 6,
        Refusal::Limit { .. } => 7,
        Refusal::NoEntry { .. } => 8,
        Refusal::NotDirectory { .. } => 9,
        Refusal::NotFile { .. } => 10,
        Refusal::NoSuchImage => 11,
        Refusal::NotPortable => 12,
        Refusal::BadRelease { .. } => 13,
        Refusal::PrefixForbidden { .. } => 14,
        Refusal::NoUnits => 15,
        Refusal::NoProfile => 16,
        Refusal::UnitExists { .. } => 17,
        Refusal::AlreadyAttached => 18,
        Refusal::NotAttached => 19,
        Refusal::NoTransfers => 20,
        Refusal::BadTransfer { .. } => 21,
        Refusal::BadManifest { .. } => 22,
        Refusal::BadTree { .. } => 23,
        Refusal::NotInDepot { .. } => 24,
        Refusal::Mismatch { .. } => 25,
        Refusal::NoneNewer => 26,
        Refusal::NoSuchVersion { .. } => 27,
        Refusal::NoRoom { .. } => 28,
        Refusal::Clash { .. } => 29,
        Refusal::NoExtension { .. } => 30,
        Refusal::Extension { .. } => 31,
        Refusal::BadFeature { .. } => 32,
        Refusal::NoneOn => 33,
        Refusal::NoMark { .. } => 37,
    }
}

/// The line of a refusal, with its newline: `refused`, the number, the word and the details, parted by spaces. Paths of
/// the host stand after a `/`, paths of the depot without one.
///
/// # Errors
/// Out of memory alone.
pub fn refusal_text(alloc: Global, refusal: &Refusal) -> Result<Text, OutOfMemory>
    ensures { IfOk result (λ text. text ≡ refusal_line refusal.now) }
{
    let mut line = Vec::from_slice(alloc, b"refused ")?;
    append_decimal(&mut line, u64::from(number(refusal)))?;
    line.push(b' ')?;
    append_details(&mut line, refusal)?;
    line.push(b'\n')?;
    Ok(Text::from_vec(line))
}

// The word and the details of a refusal.
fn append_details(line: &mut Vec<u8>, refusal: &Refusal) -> Result<(), OutOfMemory>
    ensures { OnOk result (line.new.items ≡ line.old.items ++ refusal_details refusal.now) }
{
    match refusal {
        Refusal::NoStore => append_words(line, "no-store"),
        Refusal::StoreExists => append_words(line, "store-exists"),
        Refusal::Merged => append_words(line, "merged"),
        Refusal::ReadOnly { path } => append_placed(line, "read-only ", path),
        Refusal::NoHostRelease => append_words(line, "no-host-release"),
        Refusal::BadHostRelease { line: at } => append_numbered(line, "bad-host-release ", *at),
        Refusal::Limit { which } => append_limit(line, *which),
        Refusal::NoEntry { path } => append_placed(line, "no-entry ", path),
        Refusal::NotDirectory { path } => append_placed(line, "not-directory ", path),
        Refusal::NotFile { path } => append_placed(line, "not-file ", path),
        Refusal::NoSuchImage => append_words(line, "no-image"),
        Refusal::NotPortable => append_words(line, "not-portable"),
        Refusal::BadRelease { line: at } => append_numbered(line, "bad-release ", *at),
        Refusal::PrefixForbidden { prefix } => append_text(line, "prefix ", prefix.bytes()),
        Refusal::NoUnits => append_words(line, "no-units"),
        Refusal::NoProfile => append_words(line, "no-profile"),
        Refusal::UnitExists { path } => append_placed(line, "exists ", path),
        Refusal::AlreadyAttached => append_words(line, "already-attached"),
        Refusal::NotAttached => append_words(line, "not-attached"),
        Refusal::NoTransfers => append_words(line, "no-transfers"),
        Refusal::BadTransfer {
            line: at,
            why,
            file,
        } => append_fault(line, "bad-transfer ", *at, transfer_fault_word(*why), file),
        Refusal::BadManifest { line: at, path } => append_line_of(line, "bad-manifest ", *at, path),
        Refusal::BadTree { line: at, path } => append_bad_tree(line, *at, path),
        Refusal::NotInDepot { path } => append_absent(line, path),
        Refusal::Mismatch {
            path,
            listed,
            found,
        } => append_mismatch(line, path, listed, found),
        Refusal::NoneNewer => append_words(line, "none-newer"),
        Refusal::NoSuchVersion { version } => append_text(
            line,
            "no-such-version ",
            version.bytes(),
        ),
        Refusal::NoRoom { count, file } => append_no_room(line, *count, file),
        Refusal::Clash { path } => append_placed(line, "clash ", path),
        Refusal::NoExtension { extension } => append_no_extension(line, extension),
        Refusal::Extension { extension, why } => append_unfit(line, extension, *why),
        Refusal::BadFeature {
            line: at,
            why,
            file,
        } => append_fault(line, "bad-feature ", *at, feature_fault_word(*why), file),
        Refusal::NoneOn => append_words(line, "none-on"),
        Refusal::NoMark { generation } => append_numbered(line, "no-mark ", u64::from(*generation)),
    }
}

// Which limit would be passed.
fn append_limit(line: &mut Vec<u8>, which: Which) -> Result<(), OutOfMemory>
    ensures { OnOk result (line.new.items ≡ line.old.items ++ (codes "limit " ++ which_word which)) }
{
    append_words(line, "limit ")?;
    append_words(line, which_word(which))
}

// The word of a limit.
fn which_word(which: Which) -> &'static str
    ensures { result.now ≡ which_word which }
{
    match which {
        Which::Entries => "entries",
        Which::Bytes => "bytes",
        Which::File => "file",
        Which::Path => "path",
        Which::Text => "text",
        Which::Index => "index",
        Which::Generations => "generations",
    }
}

// Which line of which file is faulty, and what is wrong there.
fn append_fault(
    line: &mut Vec<u8>,
    word: &str,
    at: u64,
    why: &str,
    file: &Name,
) -> Result<(), OutOfMemory>
    ensures { OnOk result (line.new.items ≡ line.old.items ++ (word.now ++ file_fault_words at why.now file.now)) }
{
    append_numbered(line, word, at)?;
    line.push(b' ')?;
    append_words(line, why)?;
    line.push(b' ')?;
    line.extend_from_slice(file.bytes())?;
    Ok(())
}

/// The word of what is wrong with a transfer file.
pub fn transfer_fault_word(why: TransferFault) -> &'static str
    ensures { result.now ≡ transfer_fault_word why }
{
    match why {
        TransferFault::Syntax => "syntax",
        TransferFault::Specifier => "specifier",
        TransferFault::Verify => "verify",
        TransferFault::SourceType => "source-type",
        TransferFault::SourcePath => "source-path",
        TransferFault::SourcePattern => "source-pattern",
        TransferFault::TargetType => "target-type",
        TransferFault::TargetPath => "target-path",
        TransferFault::TargetPattern => "target-pattern",
        TransferFault::Mode => "mode",
        TransferFault::Instances => "instances",
        TransferFault::Link => "link",
        TransferFault::Relative => "relative",
        TransferFault::MinVersion => "min-version",
        TransferFault::ProtectVersion => "protect-version",
    }
}

// The word of what is wrong with a feature file.
fn feature_fault_word(why: FeatureFault) -> &'static str
    ensures { result.now ≡ feature_fault_word why }
{
    match why {
        FeatureFault::Syntax => "syntax",
        FeatureFault::Enabled => "enabled",
    }
}

// A word, a line that is faulty, and the path of its file in the depot.
fn append_line_of(line: &mut Vec<u8>, word: &str, at: u64, path: &Path) -> Result<(), OutOfMemory>
    ensures { OnOk result (line.new.items ≡ line.old.items ++ (word.now ++ decimal at ++ codes " " ++ path_text path.now)) }
{
    append_numbered(line, word, at)?;
    line.push(b' ')?;
    path.append_to(line)
}

// Which line of which tree text is faulty.
fn append_bad_tree(line: &mut Vec<u8>, at: u64, path: &Option<Path>) -> Result<(), OutOfMemory>
    ensures { OnOk result (line.new.items ≡ line.old.items ++ (codes "bad-tree " ++ decimal at ++ codes " " ++ place_word path.now)) }
{
    append_words(line, "bad-tree ")?;
    append_decimal(line, at)?;
    line.push(b' ')?;
    append_place(line, path)
}

// The path of a tree text in the depot, or `-`.
fn append_place(line: &mut Vec<u8>, path: &Option<Path>) -> Result<(), OutOfMemory>
    ensures { OnOk result (line.new.items ≡ line.old.items ++ place_word path.now) }
{
    match path {
        None => Ok(line.push(b'-')?),
        Some(path) => path.append_to(line),
    }
}

// Which file of the depot is not there.
fn append_absent(line: &mut Vec<u8>, path: &Path) -> Result<(), OutOfMemory>
    ensures { OnOk result (line.new.items ≡ line.old.items ++ (codes "not-in-depot " ++ path_text path.now)) }
{
    append_words(line, "not-in-depot ")?;
    path.append_to(line)
}

// Which file of the depot has other bytes than listed.
fn append_mismatch(
    line: &mut Vec<u8>,
    path: &Path,
    listed: &Stamp,
    found: &Stamp,
) -> Result<(), OutOfMemory>
    ensures { OnOk result (line.new.items ≡ line.old.items ++ (codes "mismatch " ++ path_text path.now ++ codes " "
        ++ stamp_words listed.now ++ codes " " ++ stamp_words found.now)) }
{
    append_words(line, "mismatch ")?;
    path.append_to(line)?;
    line.push(b' ')?;
    append_stamp(line, listed)?;
    line.push(b' ')?;
    append_stamp(line, found)
}

// Words and a text.
fn append_text(line: &mut Vec<u8>, words: &str, text: &[u8]) -> Result<(), OutOfMemory>
    ensures { OnOk result (line.new.items ≡ line.old.items ++ (words.now ++ text.now)) }
{
    append_words(line, words)?;
    line.extend_from_slice(text)?;
    Ok(())
}

// How many versions are protected, and by which transfer file.
fn append_no_room(line: &mut Vec<u8>, count: u64, file: &Name) -> Result<(), OutOfMemory>
    ensures { OnOk result (line.new.items ≡ line.old.items ++ (codes "no-room " ++ decimal count ++ codes " " ++ file.now)) }
{
    append_numbered(line, "no-room ", count)?;
    append_text(line, " ", file.bytes())
}
