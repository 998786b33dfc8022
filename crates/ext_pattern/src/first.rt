// Names are taken apart by the first of some patterns that matches them.
ghost use Rattle.std.specs.Prelude.{IfSome};
ghost use Rattle.ext_pattern.specs.First.{FirstMatches, IsOnlyMatch};
ghost use Rattle.ext_pattern.specs.Matching.{Matches, digest_bytes, text_at};
ghost use Rattle.ext_pattern.specs.Pattern.{IsPattern};

use crate::caught::Caught;
use crate::pattern::Pattern;

/// What the first of the patterns that matches a name catches of it, as [`Pattern::matches`] says. `None` exactly where no
/// pattern matches. Where one matches, none after it is looked at. That the first one decides is this project's own choice.
/// What is caught is the only version and digest by these patterns, and the version is one.
///
/// The name is passed over twice a pattern at most, and no memory is taken.
pub fn first_match(patterns: &[Pattern], name: &[u8]) -> Option<Caught>
    ensures first { FirstMatches patterns.now name.now result }
    ensures only { IfSome result (λ caught. IsOnlyMatch patterns.now name.now (text_at name.now caught.version)
        (digest_bytes caught.digest)) }
{
    for pattern in patterns {
        if let Some(caught) = caught_by(pattern, name) {
            return Some(caught);
        }
    }
    None
}

// What a pattern catches of a name.
fn caught_by(pattern: &Pattern, name: &[u8]) -> Option<Caught>
    ensures caught { Matches pattern.now name.now result }
    ensures pattern { IsPattern pattern.now }
{
    // The field says of the pattern that it is one.
    let _first = &pattern.first;
    pattern.matches(name)
}
