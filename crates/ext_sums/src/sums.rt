ghost use Rattle.std.specs.Prelude.{◌≡◌, IsTrue, length};
ghost use Rattle.std.specs.FinMap.{is_sorted};
ghost use Rattle.std.specs.Option.{option_map};
ghost use Rattle.ext_lines.specs.ByteOrder.{bytes_cmp};
ghost use Rattle.ext_sums.specs.Sums.{comes_before, entries_from, entries_of, said, said_first};

use ext_text::{Digest, Text};
use std::marker::Model;

/// A name that a manifest lists, with its digest.
#[derive(Drop)]
pub struct Listed {
    /// The name: at least one byte, UTF-8 without control bytes. It need not be the name of a file.
    pub name: Text,
    /// The digest of what the name stands for.
    pub digest: Digest,
}

/// What a manifest lists: names with their digests, each name once. Contracts see it as the list of them in byte order of
/// the names, both as their bytes.
#[derive(Drop)]
pub struct Sums {
    listed: Vec<Listed>,
}

impl Model for Sums {
    ghost use Rattle.std.specs.Prelude.{ℕ, List, IsTrue};
    ghost use Rattle.std.specs.FinMap.{is_sorted};
    ghost use Rattle.ext_lines.specs.ByteOrder.{bytes_cmp};
    ghost use Rattle.ext_sums.specs.Sums.{entries_of};

    ghost Value = { List (List ℕ × List ℕ) };

    ghost view = { λ s. entries_of s.listed.items };

    ghost invariant = { λ s. IsTrue (is_sorted bytes_cmp (entries_of s.listed.items)) };
}

impl Sums {
    // The sums of these names.
    pub(crate) fn of(listed: Vec<Listed>) -> Sums
        requires { IsTrue (is_sorted bytes_cmp (entries_of listed.items)) }
        ensures { result ≡ entries_of listed.items }
    {
        Sums { listed }
    }

    /// The digest that is listed for a name; `None` exactly where the name is not listed. It takes one search by halves and
    /// no memory.
    pub fn digest_of(&self, name: &[u8]) -> Option<Digest>
        ensures { option_map (λ d. d.0) result ≡ said self.now name.now }
    {
        digest_at(names_from(self.listed.as_slice(), name), name)
    }

    /// The names with their digests, in byte order of the names.
    pub fn listed(&self) -> &[Listed]
        ensures same { entries_of result.now ≡ self.now }
        ensures sorted { IsTrue (is_sorted bytes_cmp self.now) }
    {
        self.listed.as_slice()
    }

    /// How many names are listed.
    pub fn len(&self) -> usize
        ensures { result ≡ length self.now }
    {
        self.listed.len()
    }
}

// Those from the first on that does not come before the name.
fn names_from<'a>(listed: &'a [Listed], name: &[u8]) -> &'a [Listed]
    requires { IsTrue (is_sorted bytes_cmp (entries_of listed.now)) }
    ensures { entries_of result.now ≡ entries_from name.now (entries_of listed.now) }
{
    let count = listed.partition_point(|each| comes_before(each, name));
    listed.split_at(count).1
}

// The digest of the first, where that has the name.
fn digest_at(listed: &[Listed], name: &[u8]) -> Option<Digest>
    ensures { option_map (λ d. d.0) result ≡ said_first name.now (entries_of listed.now) }
{
    match listed.first() {
        Some(first) if first.name.bytes() == name => Some(first.digest),
        _ => None,
    }
}

// Whether a listed name comes before the name.
fn comes_before(each: &Listed, name: &[u8]) -> bool
    ensures { result ≡ comes_before name.now each.now }
{
    each.name.bytes().cmp(name).is_lt()
}
