// The options of `attach` and `reattach`.
ghost use Rattle.std.specs.Prelude.{◌≡◌, ◌≢◌, ◌++◌, ◌↔◌, ℕ, List, length, codes, IsTrue, IsFalse, IfOk, MatchOption};
ghost use Rattle.ext_added.specs.declared.ask.CopyMode.TheVariants as modes;
ghost use Rattle.ext_cmd.specs.Portable.{Clash, HasRoom, IsOption, MayJoin, NoneClashes, extensions_among, is_extension, option_word};
ghost use Rattle.ext_cmd.specs.PortReading.{ReadsMode};
ghost use Rattle.ext_cmd.specs.Reading.{ReadsWord};

use crate::arguments::read_plain_name;
use crate::images::{copy_image, read_image, same_image};
use crate::portable::{AttachOption, AttachOptions};
use crate::words::CmdErr;
use ext_added::CopyMode;
use ext_text::OutOfMemory;
use std::alloc::Global;

// The most extensions.
const MOST_EXTENSIONS: usize = 16;

// An option that may stand after these.
pub(crate) fn read_joining(
    alloc: Global,
    options: &[AttachOption],
    word: &[u8],
    place: u64,
) -> Result<AttachOption, CmdErr>
    ensures { ReadsWord option_word (MayJoin options.now) word.now place result }
{
    let option = read_option(alloc, word, place)?;
    if may_join(options, &option) {
        Ok(option)
    } else {
        Err(CmdErr::Usage { place })
    }
}

// Whether the option may stand after these.
fn may_join(options: &[AttachOption], option: &AttachOption) -> bool
    ensures { IsTrue result ↔ (NoneClashes options.now option.now × HasRoom options.now option.now) }
{
    !some_clashes(options, option) && has_room(options, option)
}

// Whether one of the options clashes with it.
fn some_clashes(options: &[AttachOption], option: &AttachOption) -> bool
    ensures { IsFalse result ↔ NoneClashes options.now option.now }
{
    'options: for earlier in options {
        if clash(earlier, option) {
            return true;
        }
    }
    false
}

// Whether two options don't stand together.
fn clash(option: &AttachOption, other: &AttachOption) -> bool
    ensures { IsTrue result ↔ Clash option.now other.now }
{
    match option {
        AttachOption::Runtime => matches!(other, AttachOption::Runtime),
        AttachOption::Profile(_) => matches!(other, AttachOption::Profile(_)),
        AttachOption::Copy(mode) => match other {
            AttachOption::Runtime => false,
            AttachOption::Profile(_) => false,
            AttachOption::Copy(_) => true,
            AttachOption::Extension(_) => is_symlink(*mode),
        },
        AttachOption::Extension(image) => match other {
            AttachOption::Runtime => false,
            AttachOption::Profile(_) => false,
            AttachOption::Copy(mode) => is_symlink(*mode),
            AttachOption::Extension(other) => same_image(image, other),
        },
    }
}

// Whether all is linked.
fn is_symlink(mode: CopyMode) -> bool
    ensures { IsTrue result ↔ (mode ≡ modes.Symlink) }
{
    matches!(mode, CopyMode::Symlink)
}

// Whether there is room for it, where it is an extension.
fn has_room(options: &[AttachOption], option: &AttachOption) -> bool
    ensures { IsTrue result ↔ HasRoom options.now option.now }
{
    !is_extension(option) || count_of_extensions(options) < MOST_EXTENSIONS
}

// Whether it is an extension.
fn is_extension(option: &AttachOption) -> bool
    ensures { result ≡ is_extension option.now }
{
    matches!(option, AttachOption::Extension(_))
}

// How many extensions are among the options.
#[tactic(auto, using(crate::proofs::OptionLemmas::count_extensions))]
fn count_of_extensions(options: &[AttachOption]) -> usize
    ensures { result ≡ length (extensions_among options.now) }
{
    options.iter().filter(|option| is_extension(option)).count()
}

// An option, wherever it stands.
fn read_option(alloc: Global, word: &[u8], place: u64) -> Result<AttachOption, CmdErr>
    ensures { ReadsWord option_word IsOption word.now place result }
{
    if is_runtime(word) {
        return Ok(AttachOption::Runtime);
    }
    if let Some(name) = after(word, b"--profile=") {
        return read_profile(alloc, name, place);
    }
    if let Some(mode) = after(word, b"--copy=") {
        return read_copy(mode, place);
    }
    if let Some(image) = after(word, b"--extension=") {
        return read_extension(alloc, image, place);
    }
    Err(CmdErr::Usage { place })
}

// The option by which an attachment lasts until the host stops.
fn is_runtime(word: &[u8]) -> bool
    ensures { IsTrue result ↔ (word.now ≡ codes "--runtime") }
{
    matches!(word, b"--runtime")
}

// What follows this beginning of a word; `None` exactly where the word has another.
fn after<'a>(word: &'a [u8], beginning: &[u8]) -> Option<&'a [u8]>
    ensures { MatchOption result
        ((rest : List ℕ) → word.now ≢ beginning.now ++ rest)
        (λ rest. word.now ≡ beginning.now ++ rest.now) }
{
    word.strip_prefix(beginning)
}

// `--profile=NAME`.
fn read_profile(alloc: Global, name: &[u8], place: u64) -> Result<AttachOption, CmdErr>
    ensures { ReadsWord option_word IsOption (codes "--profile=" ++ name.now) place result }
{
    let name = read_plain_name(alloc, name, place)?;
    Ok(AttachOption::Profile(name))
}

// `--copy=MODE`.
fn read_copy(mode: &[u8], place: u64) -> Result<AttachOption, CmdErr>
    ensures { ReadsWord option_word IsOption (codes "--copy=" ++ mode.now) place result }
{
    match mode_of(mode) {
        None => Err(CmdErr::Usage { place }),
        Some(mode) => Ok(AttachOption::Copy(mode)),
    }
}

// What is copied by this word; `None` exactly where it is none.
fn mode_of(word: &[u8]) -> Option<CopyMode>
    ensures { ReadsMode word.now result }
{
    match word {
        b"copy" => Some(CopyMode::Copy),
        b"symlink" => Some(CopyMode::Symlink),
        b"auto" => Some(CopyMode::Auto),
        b"mixed" => Some(CopyMode::Mixed),
        _ => None,
    }
}

// `--extension=EXT`.
fn read_extension(alloc: Global, image: &[u8], place: u64) -> Result<AttachOption, CmdErr>
    ensures { ReadsWord option_word IsOption (codes "--extension=" ++ image.now) place result }
{
    let image = read_image(alloc, image, place)?;
    Ok(AttachOption::Extension(image))
}

// Equal options.
pub(crate) fn copies(alloc: Global, options: &[AttachOption]) -> Result<AttachOptions, OutOfMemory>
    ensures { IfOk result (λ copies. copies ≡ options.now) }
{
    let mut copies = AttachOptions::new(alloc);
    'options: for option in options {
        copies.push(copy_option(option)?)?;
    }
    Ok(copies)
}

// An equal option.
pub(crate) fn copy_option(option: &AttachOption) -> Result<AttachOption, OutOfMemory>
    ensures { IfOk result (λ copy. copy ≡ option.now) }
{
    match option {
        AttachOption::Runtime => Ok(AttachOption::Runtime),
        AttachOption::Profile(name) => Ok(AttachOption::Profile(name.copy()?)),
        AttachOption::Copy(mode) => Ok(AttachOption::Copy(*mode)),
        AttachOption::Extension(image) => Ok(AttachOption::Extension(copy_image(image)?)),
    }
}
