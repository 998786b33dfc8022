// The directories in which units are looked for.
ghost use Rattle.std.specs.Prelude.{◌≡◌, length};
ghost use Rattle.ext_units.specs.Kept.{IsDirectoryText};
ghost use Rattle.ext_units.specs.Units.{unit_directories};

// How many there are.
pub(crate) fn count_of_directories() -> usize
    ensures { result ≡ length unit_directories }
{
    3
}

// The text of the directory with this index, counted from 0.
pub(crate) fn directory_text(index: usize) -> Option<&'static [u8]>
    ensures { IsDirectoryText index result }
{
    match index {
        0 => Some(b"etc/systemd/system"),
        1 => Some(b"usr/local/lib/systemd/system"),
        2 => Some(b"usr/lib/systemd/system"),
        _ => None,
    }
}
