// The files of a sample, each with its path.
ghost use Rattle.std.specs.Prelude.{◌≡◌, ◌≤◌, ◌++◌, IfOk, OnOk};
ghost use Rattle.ext_sample.specs.Sample.{host_file, sample_host, image_file, sample_image, sample_images, most_images, sample_release};

use crate::numbered::numbered_line;
use crate::paths::{image_path, os_release_path, release_path, shared_path};
use ext_text::{OutOfMemory, Path, Text};
use std::alloc::Global;

// The lines of each release file.
const RELEASE: &[u8] = b"ID=sample\nVERSION_ID=1\n";

// How many files a host has for each image.
const HOST_FILES: u64 = 10;

// How many files an image has beside its release file.
const IMAGE_FILES: u64 = 10;

// How far the numbers of an image's files begin after those of the image before.
const STRIDE: u64 = 5;

// The files of the host.
pub(crate) fn sample_host(alloc: Global, images: u64) -> Result<Vec<(Path, Text)>, OutOfMemory>
    requires { images ≤ most_images }
    ensures { IfOk result (λ files. files.items ≡ sample_host images) }
{
    let mut files = Vec::new(alloc);
    let path = os_release_path(alloc)?;
    files.push((path, release(alloc)?))?;
    'files: for number in 0..HOST_FILES * images {
        files.push(host_file(alloc, number)?)?;
    }
    Ok(files)
}

// The files of all images.
pub(crate) fn sample_images(alloc: Global, images: u64) -> Result<Vec<(Path, Text)>, OutOfMemory>
    requires { images ≤ most_images }
    ensures { IfOk result (λ files. files.items ≡ sample_images images) }
{
    let mut files = Vec::new(alloc);
    'images: for image in 0..images {
        push_image(alloc, &mut files, image)?;
    }
    Ok(files)
}

// Adds the files of an image.
fn push_image(alloc: Global, files: &mut Vec<(Path, Text)>, image: u64) -> Result<(), OutOfMemory>
    requires { image ≤ most_images }
    ensures { OnOk result (files.new.items ≡ files.old.items ++ sample_image image) }
{
    let path = release_path(alloc, image)?;
    files.push((path, release(alloc)?))?;
    let first = STRIDE * image;
    'files: for index in 0..IMAGE_FILES {
        files.push(image_file(alloc, image, first + index)?)?;
    }
    Ok(())
}

// The host's file of a number.
fn host_file(alloc: Global, number: u64) -> Result<(Path, Text), OutOfMemory>
    ensures { IfOk result (λ file. file ≡ host_file number) }
{
    let path = shared_path(alloc, number)?;
    let line = numbered_line(alloc, b"host", number)?;
    Ok((path, line))
}

// An image's file of a number.
fn image_file(alloc: Global, image: u64, number: u64) -> Result<(Path, Text), OutOfMemory>
    ensures { IfOk result (λ file. file ≡ image_file image number) }
{
    let path = image_path(alloc, image, number)?;
    let line = numbered_line(alloc, b"image", image)?;
    Ok((path, line))
}

// The bytes of a release file.
fn release(alloc: Global) -> Result<Text, OutOfMemory>
    ensures { IfOk result (λ text. text ≡ sample_release) }
{
    Text::from_bytes(alloc, RELEASE)
}
