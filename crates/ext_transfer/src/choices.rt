// The keys whose values are words.
ghost use Rattle.std.specs.Prelude.{◌≡◌};
ghost use Rattle.std.specs.Option.{option_copied};
ghost use Rattle.ext_transfer.specs.Choices.{is_no, is_url_file, is_yes, may_verify, relative_set, resource_type, source_type_named, source_type_set, target_type_set, target_word, verify_set};
ghost use Rattle.ext_transfer.specs.Fault.{GivesOrFaults};

use crate::err::{TransferErr, TransferFault, bad};
use crate::transfer::ResourceType;
use ext_ini::Setting;

/// The type of a source.
#[derive(Clone, Copy)]
pub(crate) enum SourceType {
    /// Files at a URL.
    UrlFile,
    /// Files in a directory.
    RegularFile,
    /// Directories in a directory.
    Directory,
}

// A boolean that is false.
pub(crate) fn is_no(word: &[u8]) -> bool
    ensures { result ≡ is_no word.now }
{
    word == b"no".as_slice()
        || word == b"false".as_slice()
        || word == b"off".as_slice()
        || word == b"0".as_slice()
        || word == b"n".as_slice()
        || word == b"f".as_slice()
}

// A boolean that is true.
pub(crate) fn is_yes(word: &[u8]) -> bool
    ensures { result ≡ is_yes word.now }
{
    word == b"yes".as_slice()
        || word == b"true".as_slice()
        || word == b"on".as_slice()
        || word == b"1".as_slice()
        || word == b"y".as_slice()
        || word == b"t".as_slice()
}

// Whether the source is stated to be files at a URL.
pub(crate) fn is_url_file(stated: Option<&Setting>) -> bool
    ensures { result ≡ is_url_file (option_copied stated.entry) }
{
    match stated {
        None => false,
        Some(setting) => setting.value.bytes() == b"url-file".as_slice(),
    }
}

// Whether Verify= may have this word.
fn may_verify(url: bool, word: &[u8]) -> bool
    ensures { result ≡ may_verify url word.now }
{
    is_no(word) || (!url && is_yes(word))
}

// Verify= of [Transfer].
pub(crate) fn verify(url: bool, setting: Option<&Setting>) -> Result<(), TransferErr>
    ensures { GivesOrFaults result (verify_set url (option_copied setting.entry)) }
{
    match setting {
        None if url => Err(bad(0, TransferFault::Verify)),
        None => Ok(()),
        Some(setting) if may_verify(url, setting.value.bytes()) => Ok(()),
        Some(setting) => Err(bad(setting.line, TransferFault::Verify)),
    }
}

// The type of a source that a word names.
fn source_type_named(word: &[u8]) -> Option<SourceType>
    ensures { result ≡ source_type_named word.now }
{
    if word == b"url-file".as_slice() {
        Some(SourceType::UrlFile)
    } else if word == b"regular-file".as_slice() {
        Some(SourceType::RegularFile)
    } else if word == b"directory".as_slice() {
        Some(SourceType::Directory)
    } else {
        None
    }
}

// Type= of [Source].
pub(crate) fn source_type(setting: Option<&Setting>) -> Result<SourceType, TransferErr>
    ensures { GivesOrFaults result (source_type_set (option_copied setting.entry)) }
{
    match setting {
        None => Err(bad(0, TransferFault::SourceType)),
        Some(setting) => match source_type_named(setting.value.bytes()) {
            None => Err(bad(setting.line, TransferFault::SourceType)),
            Some(kind) => Ok(kind),
        },
    }
}

impl SourceType {
    // What the resources of such a source are.
    pub(crate) fn resources(self) -> ResourceType
        ensures { result ≡ resource_type self }
    {
        match self {
            SourceType::UrlFile => ResourceType::File,
            SourceType::RegularFile => ResourceType::File,
            SourceType::Directory => ResourceType::Directory,
        }
    }
}

// The type of the target that such resources have.
fn target_word(resources: ResourceType) -> &'static [u8]
    ensures { result.now ≡ target_word resources }
{
    match resources {
        ResourceType::File => b"regular-file",
        ResourceType::Directory => b"directory",
    }
}

// Type= of [Target].
pub(crate) fn target_type(
    resources: ResourceType,
    setting: Option<&Setting>,
) -> Result<(), TransferErr>
    ensures { GivesOrFaults result (target_type_set resources (option_copied setting.entry)) }
{
    match setting {
        None => Err(bad(0, TransferFault::TargetType)),
        Some(setting) if setting.value.bytes() == target_word(resources) => Ok(()),
        Some(setting) => Err(bad(setting.line, TransferFault::TargetType)),
    }
}

// PathRelativeTo= of [Source] or of [Target].
pub(crate) fn relative(setting: Option<&Setting>) -> Result<(), TransferErr>
    ensures { GivesOrFaults result (relative_set (option_copied setting.entry)) }
{
    match setting {
        None => Ok(()),
        Some(setting) if setting.value.bytes() == b"root".as_slice() => Ok(()),
        Some(setting) => Err(bad(setting.line, TransferFault::Relative)),
    }
}
