// What an image is, and why it can't be used.
ghost use Rattle.std.specs.Prelude.{◌≡◌, true, ℕ, List, ◌∷◌, ◌++◌, [], IfOk};
ghost use Rattle.std.specs.List.{list_any};
ghost use Rattle.ext_text.specs.Path.{IsPath};
ghost use Rattle.ext_text.specs.declared.extension.Extension.TheVariants as extensions;
ghost use Rattle.ext_tree.specs.Part.{part};
ghost use Rattle.ext_tree.specs.Tree.{lookup};
ghost use Rattle.ext_walk.specs.Walk.{parts};
ghost use Rattle.ext_find.specs.Content.{is_file_at, is_other_at};
ghost use Rattle.ext_find.specs.Image.{Breaks, ChecksAs, ReleaseChecksAs, ReleaseAt, check_of, has_os_release, is_blocked};
ghost use Rattle.ext_find.specs.Inside.{borrowed};
ghost use Rattle.ext_find.specs.ExtensionRelease.{release_text};

use crate::extension_release::release_text;
use crate::found::BreakWhy;
use crate::inside::Inside;
use crate::leading::joined;
use ext_text::{Class, Extension, Name, Names, OutOfMemory, Path, PathErr, PathRef};
use ext_tree::Tree;
use ext_walk::end_of_text;
use std::alloc::Global;

/// Why the image of this name cannot be used, the first of these:
///
/// - `NotDirectory` where it has something other than a directory at one of the hierarchies.
/// - `HasOsRelease` where it is a system extension and has an entry `usr/lib/os-release`, be it a whiteout.
/// - `NoRelease` where its release file leads to no file inside it. That is
///   `usr/lib/extension-release.d/extension-release.NAME` of a system extension and
///   `etc/extension-release.d/extension-release.NAME` of a configuration extension.
///
/// `None` where none of these holds, and for each image of portable services, whatever the hierarchies. The image is
/// what the base has below these names.
///
/// After systemd-sysext(8). That an image may not bring an os-release file is this project's own choice.
///
/// # Errors
/// `OutOfMemory` alone.
pub fn why_broken<'a, C>(
    alloc: Global,
    base: &'a Tree<C>,
    image: &PathRef<'a>,
    class: Class,
    hierarchies: &Names,
    name: &Name,
) -> Result<Option<BreakWhy>, OutOfMemory>
    ensures { IfOk result (Breaks (part image.now base.now) class hierarchies.now name.now) }
{
    let inside = Inside::of(base, image);
    match check_inside(alloc, base, image, &inside, class, hierarchies, name)? {
        ImageCheck::Usable(_release) => Ok(None),
        ImageCheck::Broken(why) => Ok(Some(why)),
    }
}

// What a look into an image says: that it can be used, and where in the base its release file is, or why it can't.
#[derive(Drop)]
pub enum ImageCheck {
    Usable(Option<Path>),
    Broken(BreakWhy),
}

// What a look into an image says, by the entries that stand inside it.
pub(crate) fn check_inside<'a, C>(
    alloc: Global,
    base: &'a Tree<C>,
    image: &PathRef<'a>,
    inside: &Inside<C>,
    class: Class,
    hierarchies: &Names,
    name: &Name,
) -> Result<ImageCheck, OutOfMemory>
    requires { inside.now ≡ part image.now base.now }
    ensures { IfOk result (ChecksAs base.now image.now class hierarchies.now name.now) }
{
    if is_blocked(inside, class, hierarchies.as_slice()) {
        Ok(ImageCheck::Broken(BreakWhy::NotDirectory))
    } else if has_os_release(inside, class) {
        Ok(ImageCheck::Broken(BreakWhy::HasOsRelease))
    } else {
        check_release(alloc, base, image, inside, class, name)
    }
}

// Whether the image has something other than a directory at a hierarchy.
fn is_blocked<C>(inside: &Inside<C>, class: Class, hierarchies: &[Name]) -> bool
    ensures { result ≡ is_blocked inside.now class hierarchies.now }
{
    match class {
        Class::Sysext | Class::Confext => has_other(inside, hierarchies),
        Class::Portable => false,
    }
}

// Whether something other than a directory stands at one of the names directly in the image.
fn has_other<C>(inside: &Inside<C>, names: &[Name]) -> bool
    ensures { result ≡ list_any (λ h. is_other_at (lookup inside.now (h ∷ []))) names.now }
{
    names.iter().any(|name| is_other(inside, name))
}

// Whether something other than a directory stands at the name directly in the image.
fn is_other<C>(inside: &Inside<C>, name: &Name) -> bool
    ensures { result ≡ is_other_at (lookup inside.now (name.now ∷ [])) }
{
    match inside.get(&[name.bytes()]) {
        None => false,
        Some(entry) => !entry.is_directory(),
    }
}

// Whether a system extension brings an os-release file.
fn has_os_release<C>(inside: &Inside<C>, class: Class) -> bool
    ensures { result ≡ has_os_release inside.now class }
{
    match class {
        Class::Sysext => inside
            .get(&[
                b"usr".as_slice(),
                b"lib".as_slice(),
                b"os-release".as_slice(),
            ])
            .is_some(),
        Class::Confext | Class::Portable => false,
    }
}

// What the release file makes of an image.
fn check_release<'a, C>(
    alloc: Global,
    base: &'a Tree<C>,
    image: &PathRef<'a>,
    inside: &Inside<C>,
    class: Class,
    name: &Name,
) -> Result<ImageCheck, OutOfMemory>
    requires { inside.now ≡ part image.now base.now }
    ensures { IfOk result (ReleaseChecksAs base.now image.now class name.now) }
{
    match class {
        Class::Sysext => Ok(check_of(system_release(alloc, base, image, inside, name)?)),
        Class::Confext => Ok(check_of(configuration_release(alloc, base, image, inside, name)?)),
        Class::Portable => Ok(ImageCheck::Usable(None)),
    }
}

// What the release file of an extension makes of it.
fn check_of(release: Option<Path>) -> ImageCheck
    ensures { result ≡ check_of release }
{
    match release {
        None => ImageCheck::Broken(BreakWhy::NoRelease),
        Some(path) => ImageCheck::Usable(Some(path)),
    }
}

// Where the release file of a system extension is. Where a file stands at its path, nothing has to be followed.
fn system_release<'a, C>(
    alloc: Global,
    base: &'a Tree<C>,
    image: &PathRef<'a>,
    inside: &Inside<C>,
    name: &Name,
) -> Result<Option<Path>, OutOfMemory>
    requires { inside.now ≡ part image.now base.now }
    ensures { IfOk result (ReleaseAt base.now image.now extensions.Sysext name.now) }
{
    let file = joined(alloc, b"extension-release.", name.bytes())?;
    let names = [
        b"usr".as_slice(),
        b"lib".as_slice(),
        b"extension-release.d".as_slice(),
        file.as_slice(),
    ];
    if is_file_inside(inside, &names) {
        return own_release(alloc, base, image, Extension::Sysext, name);
    }
    followed_release(alloc, base, image, Extension::Sysext, name)
}

// Where that of a configuration extension is.
fn configuration_release<'a, C>(
    alloc: Global,
    base: &'a Tree<C>,
    image: &PathRef<'a>,
    inside: &Inside<C>,
    name: &Name,
) -> Result<Option<Path>, OutOfMemory>
    requires { inside.now ≡ part image.now base.now }
    ensures { IfOk result (ReleaseAt base.now image.now extensions.Confext name.now) }
{
    let file = joined(alloc, b"extension-release.", name.bytes())?;
    let names = [
        b"etc".as_slice(),
        b"extension-release.d".as_slice(),
        file.as_slice(),
    ];
    if is_file_inside(inside, &names) {
        return own_release(alloc, base, image, Extension::Confext, name);
    }
    followed_release(alloc, base, image, Extension::Confext, name)
}

// Whether a file stands at these names.
fn is_file_inside<C>(inside: &Inside<C>, names: &[&[u8]]) -> bool
    ensures { result ≡ is_file_at (lookup inside.now (borrowed names.now)) }
{
    match inside.get(names) {
        None => false,
        Some(entry) => entry.is_file(),
    }
}

// Where the release file is, where a file stands at its path itself.
fn own_release<C>(
    alloc: Global,
    base: &Tree<C>,
    image: &PathRef,
    class: Extension,
    name: &Name,
) -> Result<Option<Path>, OutOfMemory>
    requires { is_file_at (lookup (part image.now base.now) (parts (release_text class name.now))) ≡ true }
    ensures { IfOk result (ReleaseAt base.now image.now class name.now) }
{
    // `pairs` says of the base that it is a tree.
    let _entries = base.pairs();
    let text = release_text(alloc, class, name)?;
    let names = PathRef::of_text(text.as_slice());
    Ok(Some(path_below(alloc, image, &names)?))
}

// The path of the names below others, which both together are within the limits.
fn path_below(alloc: Global, upper: &PathRef, lower: &PathRef) -> Result<Path, OutOfMemory>
    requires { IsPath (upper.now ++ lower.now) }
    ensures { IfOk result (λ path. path ≡ upper.now ++ lower.now) }
{
    match upper.join(alloc, lower) {
        Ok(path) => Ok(path),
        Err(PathErr::OutOfMemory) => Err(OutOfMemory),
        Err(PathErr::TooLong | PathErr::TooDeep | PathErr::BadName) => unreachable!(),
    }
}

// Where the release file is, to which its path leads inside the image.
fn followed_release<'a, C>(
    alloc: Global,
    base: &'a Tree<C>,
    image: &PathRef<'a>,
    class: Extension,
    name: &Name,
) -> Result<Option<Path>, OutOfMemory>
    ensures { IfOk result (ReleaseAt base.now image.now class name.now) }
{
    let _entries = base.pairs();
    let text = release_text(alloc, class, name)?;
    match end_of_text(alloc, base, image, text.as_slice())? {
        None => Ok(None),
        Some(end) => {
            if is_file_in(base, image, &end) {
                Ok(Some(Path::of_names(alloc, &end)?))
            } else {
                Ok(None)
            }
        }
    }
}

// Whether a file stands there, and not the image's own root.
fn is_file_in<C>(base: &Tree<C>, image: &PathRef, end: &PathRef) -> bool
    ensures { (at : List (List ℕ)) → end.now ≡ image.now ++ at → result ≡ is_file_at (lookup (part image.now base.now) at) }
{
    if end.depth() > image.depth() {
        is_file_at(base, end)
    } else {
        false
    }
}

// Whether a file stands there.
fn is_file_at<C>(base: &Tree<C>, names: &PathRef) -> bool
    ensures { result ≡ is_file_at (lookup base.now names.now) }
{
    match base.entry_at(names) {
        None => false,
        Some(entry) => entry.is_file(),
    }
}
