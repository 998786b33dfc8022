// How the two folders stand to each other.
use ext_folder::{Nesting, nesting_of};
use ext_text::OutOfMemory;

/// How a folder of the system and another one stand to each other: `Within` where one of them is the other or stands below it.
///
/// # Errors
/// `OutOfMemory` alone.
pub(crate) fn nesting_between(
    rt: &HostRuntime,
    folder: &str,
    other: &str,
) -> Result<Nesting, OutOfMemory> {
    match nesting_of(rt.alloc(), rt, folder, other)? {
        Nesting::Apart => Ok(turned(nesting_of(rt.alloc(), rt, other, folder)?)),
        nesting => Ok(nesting),
    }
}

// What was told of the other folder, as told of this one.
fn turned(nesting: Nesting) -> Nesting {
    match nesting {
        Nesting::Within => Nesting::Within,
        Nesting::Apart => Nesting::Apart,
        Nesting::Unseen(trouble) => Nesting::OtherUnseen(trouble),
        Nesting::OtherUnseen(trouble) => Nesting::Unseen(trouble),
    }
}
