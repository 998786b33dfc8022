// The parts of a pattern are followed through a name, each once.
ghost use Rattle.std.specs.Prelude.{◌≡◌, ◌≢◌, ◌+◌, ◌≤◌, ℕ, List, take, drop, length, [], MatchOption, IfSome, None};
ghost use Rattle.hex.specs.Hex.{encode_lower};
ghost use Rattle.memchr.specs.Find.{FindsNeedle};
ghost use Rattle.ext_text.specs.Digest.{IsDigest};
ghost use Rattle.ext_pattern.specs.Following.{CaughtIsWithin, AreUncaught, AreOnce, IsCaughtBy, IsCaughtFrom, IsUncaught, SpanIsWithin, SparesOther};
ghost use Rattle.ext_pattern.specs.Matching.{EndsAtLiteral, IsSpan, text_at};

use crate::part::Part;
use crate::wildcard::Wildcard;
use ext_lines::read_hex_digits;
use ext_text::Digest;
use ext_vers::is_version;
use memchr::memmem;

// What was caught of a name so far.
#[derive(Clone, Copy)]
pub(crate) struct SoFar {
    pub(crate) version: Option<(usize, usize)>,
    pub(crate) digest: Option<Digest>,
}

impl SoFar {
    // Nothing was caught.
    pub(crate) fn nothing() -> SoFar
        ensures { result ≡ record { version = None; digest = None } }
    {
        SoFar {
            version: None,
            digest: None,
        }
    }
}

// What the parts catch of a name from an index on, beside what was caught so far. The first occurrence of a literal decides,
// so no part is tried twice. No wildcard stands twice, so there are two parts at most.
pub(crate) fn follow(parts: &[Part], name: &[u8], from: usize, so_far: SoFar) -> Option<SoFar>
    requires start { from ≤ length name.now }
    requires once { AreOnce parts.now }
    requires free { AreUncaught so_far parts.now }
    requires version { SpanIsWithin name.now so_far.version }
    ensures caught { IsCaughtFrom parts.now name.now from so_far result }
    ensures within { CaughtIsWithin name.now result }
{
    match parts.split_first() {
        None => at_end(name, from, so_far),
        Some((part, others)) => {
            let literal = part.literal.bytes();
            let count = text_len(rest_from(name, from), literal)?;
            let caught = catch(part.wildcard, name, (from, from + count), so_far)?;
            follow(others, name, from + count + literal.len(), caught)
        }
    }
}

// What no part catches: what was caught so far, where the name ends there.
fn at_end(name: &[u8], from: usize, so_far: SoFar) -> Option<SoFar>
    requires start { from ≤ length name.now }
    requires version { SpanIsWithin name.now so_far.version }
    ensures caught { IsCaughtFrom [] name.now from so_far result }
    ensures within { CaughtIsWithin name.now result }
{
    if from == name.len() {
        Some(so_far)
    } else {
        None
    }
}

// What a wildcard catches of the text that stands there in a name, beside what was caught so far.
fn catch(wildcard: Wildcard, name: &[u8], span: (usize, usize), so_far: SoFar) -> Option<SoFar>
    requires span { IsSpan name.now span }
    requires free { IsUncaught wildcard so_far }
    requires version { SpanIsWithin name.now so_far.version }
    ensures caught { IsCaughtBy wildcard name.now (text_at name.now span) so_far result }
    ensures others { IfSome result (SparesOther wildcard so_far) }
    ensures within { CaughtIsWithin name.now result }
{
    let text = &name[span.0..span.1];
    match wildcard {
        Wildcard::Version => if is_version(text) {
            Some(SoFar {
                version: Some(span),
                digest: so_far.digest,
            })
        } else {
            None
        },
        Wildcard::Digest => {
            let bytes = digest_of(text)?;
            Some(SoFar {
                version: so_far.version,
                digest: Some(Digest(bytes)),
            })
        }
    }
}

// The digest whose digits a text is, in lower case.
fn digest_of(text: &[u8]) -> Option<[u8; 32]>
    ensures { MatchOption result
        ((bytes : List ℕ) → IsDigest bytes → text.now ≢ encode_lower bytes)
        (λ bytes. IsDigest bytes × (text.now ≡ encode_lower bytes)) }
{
    read_hex_digits(text)
}

// How long the text is that a wildcard takes: up to the first occurrence of the literal after it, or all of it where none
// follows.
fn text_len(rest: &[u8], literal: &[u8]) -> Option<usize>
    ensures { MatchOption result
        ((text after : List ℕ) → ¬ EndsAtLiteral rest.now text literal.now after)
        (λ n. (n + length literal.now ≤ length rest.now)
        × EndsAtLiteral rest.now (take n rest.now) literal.now (drop (n + length literal.now) rest.now)) }
{
    if literal.is_empty() {
        Some(rest.len())
    } else {
        first_of(rest, literal)
    }
}

// Where a literal first occurs.
fn first_of(rest: &[u8], literal: &[u8]) -> Option<usize>
    ensures { FindsNeedle rest.now literal.now 0 result }
{
    memmem::find(rest, literal)
}

// A name from an index on.
fn rest_from(name: &[u8], from: usize) -> &[u8]
    requires { from ≤ length name.now }
    ensures { result.now ≡ drop from name.now }
{
    name.split_at(from).1
}
