// Images of portable services as words.
ghost use Rattle.std.specs.Prelude.{◌≡◌, ◌++◌, ◌↔◌, true, false, IsTrue, IfOk, OnOk};
ghost use Rattle.ext_cmd.specs.Portable.{IsImageOfWords, image_word};
ghost use Rattle.ext_cmd.specs.PortReading.{is_slashed};
ghost use Rattle.ext_cmd.specs.Reading.{ReadsWord};

use crate::arguments::{read_below_root, read_plain_name};
use crate::words::CmdErr;
use ext_text::{OutOfMemory, Path};
use ext_units::Image;
use std::alloc::Global;

// An image: a name that isn't taken for an option, or a path other than the root.
pub(crate) fn read_image(alloc: Global, word: &[u8], place: u64) -> Result<Image, CmdErr>
    ensures { ReadsWord image_word IsImageOfWords word.now place result }
{
    if is_slashed(word) {
        read_at(alloc, word, place)
    } else {
        read_named(alloc, word, place)
    }
}

// Whether the word is a path or nothing.
fn is_slashed(word: &[u8]) -> bool
    ensures { result ≡ is_slashed word.now }
{
    match word {
        [] => false,
        [byte, ..] => *byte == b'/',
    }
}

// An image that is named by its path.
fn read_at(alloc: Global, word: &[u8], place: u64) -> Result<Image, CmdErr>
    requires { is_slashed word.now ≡ true }
    ensures { ReadsWord image_word IsImageOfWords word.now place result }
{
    let path = read_below_root(alloc, word, place)?;
    Ok(Image::At(path))
}

// An image that is named by its name.
fn read_named(alloc: Global, word: &[u8], place: u64) -> Result<Image, CmdErr>
    requires { is_slashed word.now ≡ false }
    ensures { ReadsWord image_word IsImageOfWords word.now place result }
{
    let name = read_plain_name(alloc, word, place)?;
    Ok(Image::Named(name))
}

// An image as it was given.
pub(crate) fn append_image(line: &mut Vec<u8>, image: &Image) -> Result<(), OutOfMemory>
    ensures { OnOk result (line.new.items ≡ line.old.items ++ image_word image.now) }
{
    match image {
        Image::Named(name) => Ok(line.extend_from_slice(name.bytes())?),
        Image::At(path) => path.append_absolute(line),
    }
}

// An equal image.
pub(crate) fn copy_image(image: &Image) -> Result<Image, OutOfMemory>
    ensures { IfOk result (λ copy. copy ≡ image.now) }
{
    match image {
        Image::Named(name) => Ok(Image::Named(name.copy()?)),
        Image::At(path) => Ok(Image::At(path.copy()?)),
    }
}

// Whether two images are given alike.
pub(crate) fn same_image(image: &Image, other: &Image) -> bool
    ensures { IsTrue result ↔ (image.now ≡ other.now) }
{
    match image {
        Image::Named(name) => match other {
            Image::Named(other) => name == other,
            Image::At(_) => false,
        },
        Image::At(path) => match other {
            Image::Named(_) => false,
            Image::At(other) => same_path(path, other),
        },
    }
}

// Whether two paths are equal.
fn same_path(path: &Path, other: &Path) -> bool
    ensures { IsTrue result ↔ (path.now ≡ other.now) }
{
    path == other
}
