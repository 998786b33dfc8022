// The search directories of each class, and where they lead.
ghost use Rattle.std.specs.Prelude.{◌≡◌, length, IfOk};
ghost use Rattle.ext_text.specs.declared.class.Class.TheVariants as classes;
ghost use Rattle.ext_find.specs.Directories.{IsText, OpensAt, search_directories};

use ext_text::{Class, OutOfMemory, PathRef};
use ext_tree::Tree;
use ext_walk::directory_of_text;
use std::alloc::Global;

// How many search directories a class has.
pub(crate) fn count_of_directories(class: Class) -> usize
    ensures { result ≡ length (search_directories class) }
{
    match class {
        Class::Sysext => 3,
        Class::Confext => 4,
        Class::Portable => 5,
    }
}

// The directory to which the search directory with this index leads.
pub(crate) fn opened<'a, C>(
    alloc: Global,
    base: &'a Tree<C>,
    class: Class,
    index: usize,
) -> Result<Option<PathRef<'a>>, OutOfMemory>
    ensures { IfOk result (OpensAt base.now class index) }
{
    match text_of(class, index) {
        None => Ok(None),
        Some(text) => directory_of_text(alloc, base, text),
    }
}

// The text of the search directory with this index, counted from 0.
fn text_of<'a>(class: Class, index: usize) -> Option<&'a [u8]>
    ensures { IsText class index result }
{
    match class {
        Class::Sysext => text_of_sysext(index),
        Class::Confext => text_of_confext(index),
        Class::Portable => text_of_portable(index),
    }
}

// The search directory of system extensions with this index.
fn text_of_sysext<'a>(index: usize) -> Option<&'a [u8]>
    ensures { IsText classes.Sysext index result }
{
    match index {
        0 => Some(b"etc/extensions"),
        1 => Some(b"run/extensions"),
        2 => Some(b"var/lib/extensions"),
        _ => None,
    }
}

// The search directory of configuration extensions with this index.
fn text_of_confext<'a>(index: usize) -> Option<&'a [u8]>
    ensures { IsText classes.Confext index result }
{
    match index {
        0 => Some(b"run/confexts"),
        1 => Some(b"var/lib/confexts"),
        2 => Some(b"usr/local/lib/confexts"),
        3 => Some(b"usr/lib/confexts"),
        _ => None,
    }
}

// Those of images of portable services.
fn text_of_portable<'a>(index: usize) -> Option<&'a [u8]>
    ensures { IsText classes.Portable index result }
{
    match index {
        0 => Some(b"etc/portables"),
        1 => Some(b"run/portables"),
        2 => Some(b"var/lib/portables"),
        3 => Some(b"usr/local/lib/portables"),
        4 => Some(b"usr/lib/portables"),
        _ => None,
    }
}
