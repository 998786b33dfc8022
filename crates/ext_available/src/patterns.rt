// Versions in names, by the patterns of a source and of a target.
ghost use Rattle.std.specs.Prelude.{◌≡◌, ◌↔◌, ℕ, List, Option, Some, IfOk, IfSome, IsTrue};
ghost use Rattle.std.specs.Option.{option_map};
ghost use Rattle.ext_vers.specs.Version.{IsVersion};
ghost use Rattle.ext_pattern.specs.First.{IsFirstMatch};
ghost use Rattle.ext_pattern.specs.Matching.{digest_bytes};
ghost use Rattle.ext_available.specs.Resource.{IsReadBack, ReadsVersion};

use ext_pattern::{Pattern, first_match};
use ext_text::{Digest, OutOfMemory};

// The version of a name with a digest: what the first of the patterns that matches the name catches, where it catches no other
// digest.
pub(crate) fn version_of<'n>(
    patterns: &[Pattern],
    name: &'n [u8],
    digest: &Digest,
) -> Option<&'n [u8]>
    ensures { (v : List ℕ) → ReadsVersion patterns.now name.now digest.now.0 v ↔ (option_map (λ r. r.now) result ≡ Some v) }
{
    let caught = first_match(patterns, name)?;
    if !is_same_digest(caught.digest, digest) {
        return None;
    }
    Some(caught.version_of(name))
}

// Whether a digest that was caught is this one; so it is where none was.
fn is_same_digest(caught: Option<Digest>, digest: &Digest) -> bool
    ensures { IsTrue result ↔ IfSome (digest_bytes caught) (λ d. d ≡ digest.now.0) }
{
    match caught {
        Some(other) => other.0 == digest.0,
        None => true,
    }
}

// Whether the name that the first of the patterns makes of a version and a digest is read back as the version.
pub(crate) fn is_read_back(
    patterns: &[Pattern],
    version: &[u8],
    digest: &Digest,
) -> Result<bool, OutOfMemory>
    requires { IsVersion version.now }
    ensures { IfOk result (λ is. IsTrue is ↔ IsReadBack patterns.now version.now digest.now.0) }
{
    let Some(first) = patterns.first() else {
        return Ok(false);
    };
    let name = first.fill(version, digest)?;
    Ok(is_of_version(patterns, name.bytes(), version))
}

// Whether the first of the patterns that matches a name catches the version.
fn is_of_version(patterns: &[Pattern], name: &[u8], version: &[u8]) -> bool
    ensures { IsTrue result ↔ ((caught : Option (List ℕ)) × IsFirstMatch patterns.now name.now version.now caught) }
{
    match first_match(patterns, name) {
        Some(caught) => caught.version_of(name) == version,
        None => false,
    }
}
