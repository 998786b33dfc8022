// The names of units.
ghost use Rattle.std.specs.Prelude.{◌≡◌, ◌↔◌, IsTrue};
ghost use Rattle.ext_units.specs.Units.{HasPrefix, IsUnitName, has_unit_suffix, is_unit_separator};

use crate::text_set::TextSet;

// Whether it is the name of a unit of these prefixes.
pub(crate) fn is_unit_name(prefixes: &TextSet, name: &[u8]) -> bool
    ensures { IsTrue result ↔ IsUnitName prefixes.now name.now }
{
    has_unit_suffix(name) && has_prefix(prefixes, name)
}

// Whether it is the name of a service, a socket, a target, a timer or a path.
fn has_unit_suffix(name: &[u8]) -> bool
    ensures { result ≡ has_unit_suffix name.now }
{
    name.ends_with(b".service")
        || name.ends_with(b".socket")
        || name.ends_with(b".target")
        || name.ends_with(b".timer")
        || name.ends_with(b".path")
}

// Whether the name begins with one of the prefixes and a separator. Each separator of the name is tried, however many prefixes
// there are.
fn has_prefix(prefixes: &TextSet, name: &[u8]) -> bool
    ensures { IsTrue result ↔ HasPrefix prefixes.now name.now }
{
    'bytes: for index in 0..name.len() {
        if is_unit_separator(name[index]) && prefixes.has(&name[..index]) {
            return true;
        }
    }
    false
}

// Whether it is `-`, `.` or `@`.
fn is_unit_separator(byte: u8) -> bool
    ensures { result ≡ is_unit_separator byte }
{
    byte == b'-' || byte == b'.' || byte == b'@'
}
