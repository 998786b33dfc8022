// What the words after `attach` and `reattach` ask.
ghost use Rattle.std.specs.Prelude.{◌≡◌, ◌++◌, IfOk, OnOk};
ghost use Rattle.ext_cmd.specs.Portable.{ask_of, extensions_among, extensions_of, has_runtime, mode_among, options_among, options_of};
ghost use Rattle.ext_cmd.specs.Portable.{default_profile, prefixes_among, profile_among};

use crate::attach_options::{copies, copy_option};
use crate::images::copy_image;
use crate::portable::{AttachOption, AttachOptions, AttachWord, AttachWords};
use ext_added::{Ask, CopyMode};
use ext_portext::Extensions;
use ext_text::{Name, NameErr, Names, OutOfMemory};
use std::alloc::Global;

/// Which image is to be attached, and how: where no option tells it, with the profile `default`, until it is detached, and in the
/// mode `auto`.
///
/// # Errors
/// `OutOfMemory` alone.
pub fn ask_of(alloc: Global, words: &AttachWords) -> Result<Ask, OutOfMemory>
    ensures { IfOk result (λ ask. ask ≡ ask_of words.now) }
{
    let options = options_of(alloc, words)?;
    let image = copy_image(&words.image)?;
    let prefixes = prefixes_among(alloc, words.after.as_slice())?;
    let profile = profile_among(alloc, options.as_slice())?;
    Ok(Ask {
        image,
        prefixes,
        profile,
        runtime: has_runtime(options.as_slice()),
        copy: mode_among(options.as_slice()),
    })
}

/// The extensions that are named, in their order.
///
/// # Errors
/// `OutOfMemory` alone.
pub fn extensions_of(alloc: Global, words: &AttachWords) -> Result<Extensions, OutOfMemory>
    ensures { IfOk result (λ images. images ≡ extensions_of words.now) }
{
    let options = options_of(alloc, words)?;
    extensions_among(alloc, options.as_slice())
}

// All options, copied: those before the image, and then those after it.
fn options_of(alloc: Global, words: &AttachWords) -> Result<AttachOptions, OutOfMemory>
    ensures { IfOk result (λ options. options ≡ options_of words.now) }
{
    let mut options = copies(alloc, words.before.as_slice())?;
    append_options(&mut options, words.after.as_slice())?;
    Ok(options)
}

// Appends copies of the options among options and prefixes.
fn append_options(options: &mut AttachOptions, words: &[AttachWord]) -> Result<(), OutOfMemory>
    ensures { OnOk result (options.new ≡ options.old ++ options_among words.now) }
{
    'words: for word in words {
        match word {
            AttachWord::Prefix(_) => {}
            AttachWord::Option(option) => options.push(copy_option(option)?)?,
        }
    }
    Ok(())
}

// The prefixes among options and prefixes, copied.
fn prefixes_among(alloc: Global, words: &[AttachWord]) -> Result<Names, OutOfMemory>
    ensures { IfOk result (λ names. names ≡ prefixes_among words.now) }
{
    let mut names = Names::new(alloc);
    'words: for word in words {
        match word {
            AttachWord::Prefix(name) => names.push(name.copy()?)?,
            AttachWord::Option(_) => {}
        }
    }
    Ok(names)
}

// The extensions among options, copied.
fn extensions_among(alloc: Global, options: &[AttachOption]) -> Result<Extensions, OutOfMemory>
    ensures { IfOk result (λ images. images ≡ extensions_among options.now) }
{
    let mut images = Extensions::new(alloc);
    'options: for option in options {
        match option {
            AttachOption::Runtime => {}
            AttachOption::Profile(_) => {}
            AttachOption::Copy(_) => {}
            AttachOption::Extension(image) => images.push(copy_image(image)?)?,
        }
    }
    Ok(images)
}

// The profile that options name, or the one that counts where they name none.
fn profile_among(alloc: Global, options: &[AttachOption]) -> Result<Name, OutOfMemory>
    ensures { IfOk result (λ name. name ≡ profile_among options.now) }
{
    'options: for option in options {
        match option {
            AttachOption::Runtime => {}
            AttachOption::Profile(name) => return name.copy(),
            AttachOption::Copy(_) => {}
            AttachOption::Extension(_) => {}
        }
    }
    default_profile(alloc)
}

// The profile that counts where none is named.
#[tactic(auto, using(crate::proofs::WordLemmas::default_name))]
fn default_profile(alloc: Global) -> Result<Name, OutOfMemory>
    ensures { IfOk result (λ name. name ≡ default_profile) }
{
    match Name::read(alloc, b"default") {
        Ok(name) => Ok(name),
        Err(NameErr::OutOfMemory) => Err(OutOfMemory),
        Err(NameErr::BadName) => unreachable!(),
    }
}

// Whether an option is among these by which an attachment lasts until the host stops.
fn has_runtime(options: &[AttachOption]) -> bool
    ensures { result ≡ has_runtime options.now }
{
    'options: for option in options {
        match option {
            AttachOption::Runtime => return true,
            AttachOption::Profile(_) => {}
            AttachOption::Copy(_) => {}
            AttachOption::Extension(_) => {}
        }
    }
    false
}

// What options tell to copy, or what is copied where they tell nothing.
fn mode_among(options: &[AttachOption]) -> CopyMode
    ensures { result ≡ mode_among options.now }
{
    'options: for option in options {
        match option {
            AttachOption::Runtime => {}
            AttachOption::Profile(_) => {}
            AttachOption::Copy(mode) => return *mode,
            AttachOption::Extension(_) => {}
        }
    }
    CopyMode::Auto
}
