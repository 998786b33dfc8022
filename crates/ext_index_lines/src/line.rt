// The readers of single lines, each without its newline.
ghost use Rattle.std.specs.Prelude.{◌≡◌, ◌≢◌, ◌≤◌, ◌++◌, ◌∷◌, ℕ, List, codes, IfOk, IsTrue, MatchOption};
ghost use Rattle.ext_text.specs.Digest.{IsDigest};
ghost use Rattle.ext_text.specs.Name.{IsName};
ghost use Rattle.ext_text.specs.Scope.{scope_name};
ghost use Rattle.ext_text.specs.declared.arch.Arch.{Arch};
ghost use Rattle.ext_text.specs.declared.scope.Scope.{Scope};
ghost use Rattle.ext_text.specs.declared.scope.Scope.TheVariants as scopes;
ghost use Rattle.ext_index_lines.specs.declared.text_number.TextNumber.{TextNumber};
ghost use Rattle.ext_index_lines.specs.Lines.{IsLinePath, header_line, host_line, item_line, manifest_line, number_line, path_line, worded};

use crate::text_number::TextNumber;
use ext_lines::{OutOfMemory, read_decimal, split_at_byte};
use ext_text::{Arch, Digest, Name, NameErr, Path, Scope};
use ext_tree::{path_of, split_digest, split_number};
use std::alloc::Global;

/// The first line of a text with number 1.
const HEADER_1: &[u8] = b"hostext-store 1";

/// The first line of a text with number 2.
const HEADER_2: &[u8] = b"hostext-store 2";

/// The first line of a text with number 3.
const HEADER_3: &[u8] = b"hostext-store 3";

/// The highest count on a line.
pub const MOST_COUNT: u64 = 1_073_741_824;

/// The text whose first line this is; `None` exactly where it is no such line.
pub fn text_of_header(line: &[u8]) -> Option<TextNumber>
    ensures { MatchOption result ((text : TextNumber) → line.now ≢ header_line text) (λ text. line.now ≡ header_line text) }
{
    if line == HEADER_1 {
        Some(TextNumber::One)
    } else if line == HEADER_2 {
        Some(TextNumber::Later { owners: false })
    } else if line == HEADER_3 {
        Some(TextNumber::Later { owners: true })
    } else {
        None
    }
}

/// What follows the word and a space on a line; `None` exactly where the line doesn't begin with them.
pub fn after_word<'a>(line: &'a [u8], word: &[u8]) -> Option<&'a [u8]>
    ensures { MatchOption result
        ((rest : List ℕ) → line.now ≢ worded word.now rest)
        (λ rest. line.now ≡ worded word.now rest.now) }
{
    let rest = after_prefix(line, word)?;
    after_space(rest)
}

// What follows a space.
fn after_space(text: &[u8]) -> Option<&[u8]>
    ensures { MatchOption result
        ((rest : List ℕ) → text.now ≢ 32 ∷ rest)
        (λ rest. text.now ≡ 32 ∷ rest.now) }
{
    match text {
        [b' ', rest @ ..] => Some(rest),
        _ => None,
    }
}

// What follows a prefix.
fn after_prefix<'a>(text: &'a [u8], prefix: &[u8]) -> Option<&'a [u8]>
    ensures { MatchOption result
        ((rest : List ℕ) → text.now ≢ prefix.now ++ rest)
        (λ rest. text.now ≡ prefix.now ++ rest.now) }
{
    if text.len() < prefix.len() {
        return None;
    }
    let (field, rest) = text.split_at(prefix.len());
    if field == prefix { Some(rest) } else { None }
}

/// The number of at most `most` that follows the word on a line; `None` exactly where the line is that of no such number.
pub fn number_after(line: &[u8], word: &[u8], most: u64) -> Option<u64>
    ensures { MatchOption result
        ((n : ℕ) → n ≤ most → line.now ≢ number_line word.now n)
        (λ n. (n ≤ most) × (line.now ≡ number_line word.now n)) }
{
    let rest = after_word(line, word)?;
    read_decimal(rest, most)
}

/// The name that follows the word on a line; `None` exactly where the line is that of no name.
///
/// # Errors
/// Out of memory alone.
pub fn name_after(alloc: Global, line: &[u8], word: &[u8]) -> Result<Option<Name>, OutOfMemory>
    ensures { IfOk result (λ found. MatchOption found
        ((name : List ℕ) → IsName name → line.now ≢ worded word.now name)
        (λ name. IsName name × (line.now ≡ worded word.now name))) }
{
    match after_word(line, word) {
        None => Ok(None),
        Some(rest) => name_of(alloc, rest),
    }
}

// The name of these bytes.
fn name_of(alloc: Global, bytes: &[u8]) -> Result<Option<Name>, OutOfMemory>
    ensures { IfOk result (λ found. MatchOption found
        ((name : List ℕ) → IsName name → bytes.now ≢ name)
        (λ name. IsName name × (bytes.now ≡ name))) }
{
    match Name::read(alloc, bytes) {
        Ok(name) => Ok(Some(name)),
        Err(NameErr::OutOfMemory) => Err(OutOfMemory),
        Err(NameErr::BadName) => Ok(None),
    }
}

/// The path that follows the word on a line; `None` exactly where the line is that of no path, or of the root.
///
/// # Errors
/// Out of memory alone.
pub fn path_after(alloc: Global, line: &[u8], word: &[u8]) -> Result<Option<Path>, OutOfMemory>
    ensures { IfOk result (λ found. MatchOption found
        ((path : List (List ℕ)) → IsLinePath path → line.now ≢ path_line word.now path)
        (λ path. IsLinePath path × (line.now ≡ path_line word.now path))) }
{
    match after_word(line, word) {
        None => Ok(None),
        Some(rest) => path_of(alloc, rest),
    }
}

/// The architecture and the scope of a line `host`; `None` exactly where it is no such line, or its scope is `portable`.
pub fn host_of(line: &[u8]) -> Option<(Arch, Scope)>
    ensures { MatchOption result
        ((arch : Arch) (scope : Scope) → scope ≢ scopes.Portable → line.now ≢ host_line arch scope)
        (λ r. (r.1 ≢ scopes.Portable) × (line.now ≡ host_line r.0 r.1)) }
{
    let rest = after_word(line, b"host")?;
    let (arch, scope) = split_at_byte(rest, b' ')?;
    let arch = Arch::read(arch)?;
    let scope = host_scope_of(scope)?;
    Some((arch, scope))
}

// The scope of this name, which a host may have.
fn host_scope_of(name: &[u8]) -> Option<Scope>
    ensures { MatchOption result
        ((scope : Scope) → scope ≢ scopes.Portable → name.now ≢ scope_name scope)
        (λ scope. (scope ≢ scopes.Portable) × (name.now ≡ scope_name scope)) }
{
    match Scope::read(name) {
        Some(Scope::System) => Some(Scope::System),
        Some(Scope::Initrd) => Some(Scope::Initrd),
        Some(Scope::Portable) | None => None,
    }
}

/// The count, which is at most [`MOST_COUNT`], and the path of a line `k`; `None` exactly where it is no such line.
///
/// # Errors
/// Out of memory alone.
pub fn manifest_of(alloc: Global, line: &[u8]) -> Result<Option<(u64, Path)>, OutOfMemory>
    ensures { IfOk result (λ found. MatchOption found
        ((n : ℕ) (path : List (List ℕ)) → n ≤ MOST_COUNT → IsLinePath path → line.now ≢ manifest_line n path)
        (λ r. (r.0 ≤ MOST_COUNT) × IsLinePath r.1 × (line.now ≡ manifest_line r.0 r.1))) }
{
    let Some(rest) = after_word(line, b"k") else {
        return Ok(None);
    };
    let Some((count, rest)) = split_number(rest, MOST_COUNT) else {
        return Ok(None);
    };
    match path_of(alloc, rest)? {
        None => Ok(None),
        Some(path) => Ok(Some((count, path))),
    }
}

/// The digest and the path of a line `m`; `None` exactly where it is no such line.
///
/// # Errors
/// Out of memory alone.
pub fn item_of(alloc: Global, line: &[u8]) -> Result<Option<(Digest, Path)>, OutOfMemory>
    ensures { IfOk result (λ found. MatchOption found
        ((digest : List ℕ) (path : List (List ℕ)) → IsDigest digest → IsLinePath path → line.now ≢ item_line digest path)
        (λ r. IsDigest r.0.0 × IsLinePath r.1 × (line.now ≡ item_line r.0.0 r.1))) }
{
    let Some(rest) = after_word(line, b"m") else {
        return Ok(None);
    };
    let Some((digest, rest)) = split_digest(rest) else {
        return Ok(None);
    };
    match path_of(alloc, rest)? {
        None => Ok(None),
        Some(path) => Ok(Some((digest, path))),
    }
}
