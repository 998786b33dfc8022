// Parts of the names of images.
ghost use Rattle.std.specs.Prelude.{◌≡◌};
ghost use Rattle.ext_units.specs.ImageName.{first_part, last_name};

use ext_lines::split_at_byte;
use ext_text::Path;

/// The last name of a path; nothing of the root.
pub fn last_name(path: &Path) -> &[u8]
    ensures { result.now ≡ last_name path.now }
{
    match path.names().split_last() {
        None => b"",
        Some((_above, name)) => name,
    }
}

/// The name of an image up to its first `_`, after which a version stands, or whole where it has none. After portablectl(1).
pub fn first_part(name: &[u8]) -> &[u8]
    ensures { result.now ≡ first_part name.now }
{
    match split_at_byte(name, b'_') {
        None => name,
        Some((part, _rest)) => part,
    }
}
