// Transfer files are read: first the syntax, then the keys in their order.
ghost use Rattle.std.specs.Prelude.{◌≡◌, ◌++◌, codes, IfOk};
ghost use Rattle.std.specs.Option.{option_copied};
ghost use Rattle.ext_ini.specs.Reading.{ini_of};
ghost use Rattle.ext_transfer.specs.Bounds.{KeepsBounds};
ghost use Rattle.ext_transfer.specs.Fault.{GivesOrFaults};
ghost use Rattle.ext_transfer.specs.Meaning.{letter_meaning};
ghost use Rattle.ext_transfer.specs.Transfer.{all_settings, keeping_in, last_setting, names_in, sections_or_fault, source_in, target_in, transfer_in, transfer_of, versions_of, words_in};

use crate::choices::{is_url_file, relative, source_type, target_type, verify};
use crate::err::{TransferErr, TransferFault, bad};
use crate::numbers::{instances, mode};
use crate::paths::{link, source_path, target_path};
use crate::patterns::{patterns_of, target_patterns};
use crate::specifiers::Specifiers;
use crate::transfer::{Location, ResourceType, Transfer};
use crate::versions::{append_words, min_version, protected_versions};
use ext_ini::{Ini, IniErr, Setting, read_ini};
use ext_release::Release;
use ext_text::{Arch, Lines, Mode, Name, OutOfMemory, Path, Text};
use std::alloc::Global;

/// What [Source] says.
#[derive(Drop)]
struct Source {
    resources: ResourceType,
    location: Location,
}

/// How the target is kept.
#[derive(Drop)]
struct Keeping {
    mode: Mode,
    instances: u32,
    link: Option<Path>,
}

/// The versions that [Transfer] names.
#[derive(Drop)]
struct Versions {
    min: Option<Text>,
    protect: Lines,
}

/// Reads a transfer file, which has the syntax of unit files, on a host with this release file, if it has one, and of this
/// architecture. Its keys are those of sysupdate.d(5). Unknown sections and keys count for nothing.
///
/// The last setting of a key counts, but `MatchPattern=`, `ProtectVersion=`, `Features=` and `RequisiteFeatures=` are lists,
/// whose earlier settings an empty one drops. In `Path=`, `MatchPattern=`, `CurrentSymlink=`, `MinVersion=` and
/// `ProtectVersion=` specifiers stand for values of the release file (`%A` for `IMAGE_VERSION`, `%B` for `BUILD_ID`, `%M` for
/// `IMAGE_ID`, `%o` for `ID`, `%w` for `VERSION_ID`), `%a` for the architecture and `%%` for `%`; an unset value stands for
/// nothing. What stands for a specifier is not looked at again.
///
/// # Errors
/// - `BadTransfer` with the first fault: a line that is no line of a unit file, and then the keys in this order, each with the
///   line of its setting, or 0 where a key is absent that has to be set. A list has the line of its first faulty setting. Of
///   each key an unknown specifier comes first, of a list in any of its settings.
///
///   1. `Verify=` of `[Transfer]`: for the source type `url-file` it has to be `no`, `false`, `off`, `0`, `n` or `f`. For
///      any other it may also be `yes`, `true`, `on`, `1`, `y` or `t`, or absent.
///   2. `Type=` of `[Source]` has to be `url-file`, `regular-file` or `directory`.
///   3. `Path=` of `[Source]` has to be `file:///` and a path for `url-file`, and else `/` and a path, of at most 63 names
///      and 3,840 bytes. Slashes at its end don't count.
///   4. `MatchPattern=` of `[Source]` has to be patterns, parted by blanks: one at least in each setting, and 64 at most.
///   5. `Type=` of `[Target]` has to be `directory` for the source type `directory`, and else `regular-file`.
///   6. `Path=` of `[Target]` has to be `/` and a path. Slashes at its end don't count.
///   7. `MatchPattern=` of `[Target]` is as that of `[Source]`, whose patterns count where it is absent.
///   8. `Mode=` of `[Target]` is 1 to 5 octal digits, at most 7777, or absent.
///   9. `InstancesMax=` of `[Target]` is 2 to 1,000,000, or absent.
///   10. `CurrentSymlink=` of `[Target]` is a name that is within the limits of a path below the target's, or `/` and a path
///       other than the root, or empty, or absent.
///   11. `PathRelativeTo=` of `[Source]` and then of `[Target]` is `root`, or absent.
///   12. `MinVersion=` of `[Transfer]` is a version, or empty, or absent.
///   13. `ProtectVersion=` of `[Transfer]` is versions, parted by blanks, or absent.
/// - `OutOfMemory`.
pub fn read_transfer(
    alloc: Global,
    file: &Name,
    bytes: &[u8],
    host: Option<&Release>,
    arch: Arch,
) -> Result<Transfer, TransferErr>
    ensures gives { GivesOrFaults result (transfer_of file.now bytes.now (option_copied host.entry) arch) }
    ensures bounds { IfOk result KeepsBounds }
{
    transfer_of(alloc, file, bytes, host, arch)
}

// The transfer that a file of this name and these bytes says on a host.
fn transfer_of(
    alloc: Global,
    file: &Name,
    bytes: &[u8],
    host: Option<&Release>,
    arch: Arch,
) -> Result<Transfer, TransferErr>
    ensures { GivesOrFaults result (transfer_of file.now bytes.now (option_copied host.entry) arch) }
{
    let ini = sections_of(alloc, bytes)?;
    transfer_in(alloc, file, &Specifiers { host, arch }, &ini)
}

// The sections of a file.
fn sections_of(alloc: Global, bytes: &[u8]) -> Result<Ini, TransferErr>
    ensures { GivesOrFaults result (sections_or_fault (ini_of bytes.now)) }
{
    match read_ini(alloc, bytes) {
        Ok(ini) => Ok(ini),
        Err(IniErr::OutOfMemory) => Err(TransferErr::OutOfMemory),
        Err(IniErr::BadIni { line, why: _ }) => Err(bad(line, TransferFault::Syntax)),
    }
}

// The transfer of a name that sections say.
fn transfer_in(
    alloc: Global,
    file: &Name,
    specifiers: &Specifiers,
    ini: &Ini,
) -> Result<Transfer, TransferErr>
    ensures { GivesOrFaults result (transfer_in file.now (letter_meaning specifiers.now) ini.now) }
{
    let source = source_in(alloc, specifiers, ini)?;
    let target = target_in(alloc, specifiers, source.resources, ini)?;
    let keeping = keeping_in(alloc, specifiers, &target.path, ini)?;
    let versions = versions_of(alloc, specifiers, ini)?;
    Ok(Transfer {
        file: file.copy()?,
        resources: source.resources,
        source: source.location,
        target,
        mode: keeping.mode,
        instances: keeping.instances,
        link: keeping.link,
        min: versions.min,
        protect: versions.protect,
        features: names_in(alloc, ini, "Features")?,
        requisite: names_in(alloc, ini, "RequisiteFeatures")?,
    })
}

// [Source], and Verify= before it.
fn source_in(alloc: Global, specifiers: &Specifiers, ini: &Ini) -> Result<Source, TransferErr>
    ensures { GivesOrFaults result (source_in (letter_meaning specifiers.now) ini.now) }
{
    let stated = ini.last("Source", "Type");
    verify(is_url_file(stated), ini.last("Transfer", "Verify"))?;
    let kind = source_type(stated)?;
    let path = source_path(alloc, specifiers, kind, ini.last("Source", "Path"))?;
    let settings = ini.all("Source", "MatchPattern")?;
    let patterns = patterns_of(
        alloc,
        specifiers,
        settings.as_slice(),
        TransferFault::SourcePattern,
    )?;
    Ok(Source {
        resources: kind.resources(),
        location: Location { path, patterns },
    })
}

// Type=, Path= and MatchPattern= of [Target].
fn target_in(
    alloc: Global,
    specifiers: &Specifiers,
    resources: ResourceType,
    ini: &Ini,
) -> Result<Location, TransferErr>
    ensures { GivesOrFaults result (target_in (letter_meaning specifiers.now) resources ini.now) }
{
    target_type(resources, ini.last("Target", "Type"))?;
    let path = target_path(alloc, specifiers, ini.last("Target", "Path"))?;
    let of_source = ini.all("Source", "MatchPattern")?;
    let settings = ini.all("Target", "MatchPattern")?;
    let patterns = target_patterns(alloc, specifiers, of_source.as_slice(), settings.as_slice())?;
    Ok(Location { path, patterns })
}

// How the target is kept: the other keys of [Target], and that paths are relative to the root.
fn keeping_in(
    alloc: Global,
    specifiers: &Specifiers,
    target: &Path,
    ini: &Ini,
) -> Result<Keeping, TransferErr>
    ensures { GivesOrFaults result (keeping_in (letter_meaning specifiers.now) target.now ini.now) }
{
    let mode = mode(ini.last("Target", "Mode"))?;
    let instances = instances(ini.last("Target", "InstancesMax"))?;
    let link = link(
        alloc,
        specifiers,
        target,
        ini.last("Target", "CurrentSymlink"),
    )?;
    relative(ini.last("Source", "PathRelativeTo"))?;
    relative(ini.last("Target", "PathRelativeTo"))?;
    Ok(Keeping {
        mode,
        instances,
        link,
    })
}

// MinVersion= and ProtectVersion= of [Transfer].
fn versions_of(alloc: Global, specifiers: &Specifiers, ini: &Ini) -> Result<Versions, TransferErr>
    ensures { GivesOrFaults result (versions_of (letter_meaning specifiers.now) ini.now) }
{
    let min = min_version(alloc, specifiers, ini.last("Transfer", "MinVersion"))?;
    let settings = ini.all("Transfer", "ProtectVersion")?;
    let protect = protected_versions(alloc, specifiers, settings.as_slice())?;
    Ok(Versions { min, protect })
}

// The names of features that a key of [Transfer] lists.
fn names_in(alloc: Global, ini: &Ini, key: &str) -> Result<Lines, OutOfMemory>
    ensures { IfOk result (λ names. names ≡ names_in ini.now key.now) }
{
    let settings = ini.all("Transfer", key)?;
    words_in(alloc, settings.as_slice())
}

// The words of settings.
fn words_in(alloc: Global, settings: &[Setting]) -> Result<Lines, OutOfMemory>
    ensures { IfOk result (λ words. words ≡ words_in settings.now) }
{
    let mut words = Lines::new(alloc);
    let mut rest = settings;
    'settings: loop {
        match rest.split_first() {
            None => return Ok(words),
            Some((setting, after)) => {
                append_words(alloc, &mut words, setting.value.bytes())?;
                rest = after;
            }
        }
    }
}
