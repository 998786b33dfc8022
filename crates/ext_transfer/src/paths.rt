// The keys whose values are paths.
ghost use Rattle.ext_transfer.specs.declared.err.TransferFault.TheVariants as errors;
ghost use Rattle.std.specs.Prelude.{◌≡◌, ◌∷◌, ◌++◌, [], List, ℕ, MatchOption, IfOk};
ghost use Rattle.std.specs.Option.{option_copied};
ghost use Rattle.ext_text.specs.Name.{IsName};
ghost use Rattle.ext_transfer.specs.Fault.{GivesOrFaults, or_fault};
ghost use Rattle.ext_transfer.specs.Meaning.{letter_meaning};
ghost use Rattle.ext_transfer.specs.Paths.{after_prefix, before_slashes, link_at, link_path, link_set, name_in, path_after, path_below_root, path_fault, path_read, source_path_of, source_path_set, source_prefix, target_path_set, with_room, within_limits};

use crate::choices::SourceType;
use crate::err::{TransferErr, TransferFault, bad};
use crate::specifiers::{Specifiers, expanded_value};
use ext_ini::Setting;
use ext_lines::begins_with;
use ext_text::{Name, NameErr, Path, PathErr};
use std::alloc::Global;

/// The most names of a source's path.
const MOST_NAMES: usize = 63;

/// The most bytes of a source's path.
const MOST_BYTES: usize = 3840;

// The path of a text.
fn path_read(alloc: Global, text: &[u8], line: u64, why: TransferFault) -> Result<Path, TransferErr>
    ensures { GivesOrFaults result (or_fault (path_read text.now) line why) }
{
    match Path::read(alloc, text) {
        Ok(path) => Ok(path),
        Err(refusal) => Err(path_fault(refusal, line, why)),
    }
}

// What it means for a file that a text at a line is no path, or that there was no memory for it.
fn path_fault(refusal: PathErr, line: u64, why: TransferFault) -> TransferErr
    ensures { result ≡ path_fault refusal line why }
{
    match refusal {
        PathErr::OutOfMemory => TransferErr::OutOfMemory,
        PathErr::TooLong | PathErr::TooDeep | PathErr::BadName => bad(line, why),
    }
}

// A text after a prefix, if it begins so.
fn after_prefix<'t>(prefix: &[u8], text: &'t [u8]) -> Option<&'t [u8]>
    ensures { option_copied result ≡ after_prefix prefix.now text.now }
{
    if begins_with(text, prefix) {
        Some(&text[prefix.len()..])
    } else {
        None
    }
}

// A text without the slashes at its end.
fn before_slashes(text: &[u8]) -> &[u8]
    ensures { result.now ≡ before_slashes text.now }
{
    let mut rest = text;
    'slashes: loop {
        match rest {
            [before @ .., last] if *last == b'/' => rest = before,
            _ => return rest,
        }
    }
}

// The path that stands after a prefix, any slashes at its end left out.
fn path_after(
    alloc: Global,
    prefix: &[u8],
    text: &[u8],
    line: u64,
    why: TransferFault,
) -> Result<Path, TransferErr>
    ensures { GivesOrFaults result (or_fault (path_after prefix.now text.now) line why) }
{
    match after_prefix(prefix, text) {
        None => Err(bad(line, why)),
        Some(rest) => path_read(alloc, before_slashes(rest), line, why),
    }
}

// What stands before the path of a source of this type.
fn source_prefix(kind: SourceType) -> &'static [u8]
    ensures { result.now ≡ source_prefix kind }
{
    match kind {
        SourceType::UrlFile => b"file:///",
        SourceType::RegularFile => b"/",
        SourceType::Directory => b"/",
    }
}

// The path of a source of this type that a text at a line writes.
fn source_path_of(
    alloc: Global,
    kind: SourceType,
    text: &[u8],
    line: u64,
) -> Result<Path, TransferErr>
    ensures { GivesOrFaults result (or_fault (source_path_of kind text.now) line errors.SourcePath) }
{
    match path_after(
        alloc,
        source_prefix(kind),
        text,
        line,
        TransferFault::SourcePath,
    ) {
        Err(refused) => Err(refused),
        Ok(path) => with_room(path, line),
    }
}

// A path that leaves room below it for a resource.
fn with_room(path: Path, line: u64) -> Result<Path, TransferErr>
    ensures { GivesOrFaults result (or_fault (with_room path) line errors.SourcePath) }
{
    if path.depth() <= MOST_NAMES && path.text().len() <= MOST_BYTES {
        Ok(path)
    } else {
        Err(bad(line, TransferFault::SourcePath))
    }
}

// Path= of [Source].
pub(crate) fn source_path(
    alloc: Global,
    specifiers: &Specifiers,
    kind: SourceType,
    setting: Option<&Setting>,
) -> Result<Path, TransferErr>
    ensures { GivesOrFaults result (source_path_set (letter_meaning specifiers.now) kind (option_copied setting.entry)) }
{
    match setting {
        None => Err(bad(0, TransferFault::SourcePath)),
        Some(setting) => {
            let text = expanded_value(alloc, specifiers, setting)?;
            source_path_of(alloc, kind, text.bytes(), setting.line)
        }
    }
}

// Path= of [Target].
pub(crate) fn target_path(
    alloc: Global,
    specifiers: &Specifiers,
    setting: Option<&Setting>,
) -> Result<Path, TransferErr>
    ensures { GivesOrFaults result (target_path_set (letter_meaning specifiers.now) (option_copied setting.entry)) }
{
    match setting {
        None => Err(bad(0, TransferFault::TargetPath)),
        Some(setting) => {
            let text = expanded_value(alloc, specifiers, setting)?;
            path_after(
                alloc,
                b"/",
                text.bytes(),
                setting.line,
                TransferFault::TargetPath,
            )
        }
    }
}

// CurrentSymlink= of [Target].
pub(crate) fn link(
    alloc: Global,
    specifiers: &Specifiers,
    target: &Path,
    setting: Option<&Setting>,
) -> Result<Option<Path>, TransferErr>
    ensures { GivesOrFaults result (link_set (letter_meaning specifiers.now) target.now (option_copied setting.entry)) }
{
    match setting {
        None => Ok(None),
        Some(setting) => {
            let text = expanded_value(alloc, specifiers, setting)?;
            link_at(alloc, target, setting.line, text.bytes())
        }
    }
}

// The path of a link that a text at a line writes; the empty text writes none.
fn link_at(
    alloc: Global,
    target: &Path,
    line: u64,
    text: &[u8],
) -> Result<Option<Path>, TransferErr>
    ensures { GivesOrFaults result (link_at target.now line text.now) }
{
    if text.is_empty() {
        return Ok(None);
    }
    Ok(Some(link_path(alloc, target, line, text)?))
}

// The path of a link: what stands after a `/`, or the name in the target's directory.
fn link_path(alloc: Global, target: &Path, line: u64, text: &[u8]) -> Result<Path, TransferErr>
    ensures { GivesOrFaults result (or_fault (link_path target.now text.now) line errors.Link) }
{
    match text.split_first() {
        None => Err(bad(line, TransferFault::Link)),
        Some((first, rest)) => if *first == b'/' {
            path_below_root(alloc, line, rest)
        } else {
            name_in(alloc, target, line, text)
        },
    }
}

// The path of a name in a directory.
fn name_in(alloc: Global, directory: &Path, line: u64, text: &[u8]) -> Result<Path, TransferErr>
    ensures { GivesOrFaults result (or_fault (name_in directory.now text.now) line errors.Link) }
{
    match Name::read(alloc, text) {
        Err(NameErr::OutOfMemory) => Err(TransferErr::OutOfMemory),
        Err(NameErr::BadName) => Err(bad(line, TransferFault::Link)),
        Ok(name) => child(directory, &name, line),
    }
}

// The path of a text, but not the root.
fn path_below_root(alloc: Global, line: u64, text: &[u8]) -> Result<Path, TransferErr>
    ensures { GivesOrFaults result (or_fault (path_below_root text.now) line errors.Link) }
{
    if text.is_empty() {
        return Err(bad(line, TransferFault::Link));
    }
    path_read(alloc, text, line, TransferFault::Link)
}

// The path of a name that is one.
fn child(directory: &Path, name: &Name, line: u64) -> Result<Path, TransferErr>
    ensures { GivesOrFaults result (or_fault (within_limits (directory.now ++ name.now ∷ [])) line errors.Link) }
{
    match directory.child(name) {
        Ok(path) => Ok(path),
        Err(refusal) => Err(path_fault(refusal, line, TransferFault::Link)),
    }
}
