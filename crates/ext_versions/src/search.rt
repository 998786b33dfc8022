// Searches in ascending versions.
ghost use Rattle.std.specs.Prelude.{◌≡◌, slice_get};
ghost use Rattle.std.specs.List.Sorted.{IsStrictlySortedBy};
ghost use Rattle.std.specs.Ordering.{is_lt};
ghost use Rattle.ext_vers.specs.Version.{order_of};
ghost use Rattle.ext_versions.specs.Search.{is_found, version_from};
ghost use Rattle.ext_versions.specs.Versions.{IsPlaceOf, has_version};

use ext_vers::{Version, order};

// Whether the version of these bytes is one of the versions.
pub(crate) fn has_version(versions: &[Version], bytes: &[u8]) -> bool
    requires { IsStrictlySortedBy order_of versions.now }
    ensures { result ≡ has_version versions.now bytes.now }
{
    let place = place_from(versions, bytes);
    is_at(versions, place, bytes)
}

// The place of the version of these bytes among the versions.
pub(crate) fn place_of(versions: &[Version], bytes: &[u8]) -> Option<usize>
    requires { IsStrictlySortedBy order_of versions.now }
    ensures { IsPlaceOf versions.now bytes.now result }
{
    let place = place_from(versions, bytes);
    if is_at(versions, place, bytes) {
        Some(place)
    } else {
        None
    }
}

// How many of the versions come before these bytes.
fn place_from(versions: &[Version], bytes: &[u8]) -> usize
    requires { IsStrictlySortedBy order_of versions.now }
    ensures { slice_get versions.now result ≡ version_from bytes.now versions.now }
{
    versions.partition_point(|version| comes_before(version, bytes))
}

// Whether the version at a place is the one of these bytes.
fn is_at(versions: &[Version], place: usize, bytes: &[u8]) -> bool
    ensures { result ≡ is_found bytes.now (slice_get versions.now place) }
{
    match versions.get(place) {
        None => false,
        Some(version) => bytes == version.bytes(),
    }
}

// Whether a version comes before these bytes.
fn comes_before(version: &Version, bytes: &[u8]) -> bool
    ensures { result ≡ is_lt (order_of version.now bytes.now) }
{
    order(version.bytes(), bytes).is_lt()
}
