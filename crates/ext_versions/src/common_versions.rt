// The versions that several lists share.
ghost use Rattle.std.specs.Prelude.{◌<◌, length};
ghost use Rattle.ext_versions.specs.Versions.{AreCommon};

use crate::versions::Versions;

/// The versions that each of the lists has, of which there is one at least. It takes no memory.
///
/// Each version of the first list is searched in the others by halves, up to the first of them that lacks it.
pub fn common(lists: Vec<Versions>) -> Versions
    requires { 0 < length lists.items }
    ensures { AreCommon lists.items result }
{
    let mut others = lists;
    let first = others.remove(0);
    first.common_with(others.as_slice())
}
