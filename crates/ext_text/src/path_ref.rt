// The names of a path, as a part of a text that is borrowed.
ghost use Rattle.std.specs.Prelude.{◌≡◌, ◌↔◌, [], ◌∷◌, ◌++◌, IsTrue, MatchOption, length, take, drop, false, ◌+◌, ◌-◌, ◌<◌, ◌==◌, count_by};
ghost use Rattle.std.specs.List.{AllByRecursion};
ghost use Rattle.ext_text.specs.Name.{IsName};
ghost use Rattle.ext_text.specs.Path.{path_text, path_parts};
ghost use Rattle.ext_text.specs.Prefix.{is_prefix, parent};

use crate::parts::split_at_last_slash;
use crate::text_order::{begins_with, text_after};
use ext_lines::split_at_byte;
use std::marker::Model;

/// Names from some directory on, borrowed as one text: those of a path, some of them, or any others that need not be
/// within the limits of a path. Contracts see them as the list of the names, each as its bytes.
#[derive(Drop)]
pub struct PathRef<'a> {
    text: &'a [u8],
}

impl<'a> Model for PathRef<'a> {
    ghost use Rattle.std.specs.Prelude.{ℕ, List};
    ghost use Rattle.std.specs.List.{AllByRecursion};
    ghost use Rattle.ext_text.specs.Name.{IsName};
    ghost use Rattle.ext_text.specs.Path.{path_parts};

    ghost Value = { List (List ℕ) };

    ghost view = { λ p. path_parts p.text.now };

    ghost invariant = { λ p. AllByRecursion IsName (path_parts p.text.now) };
}

impl<'a> PathRef<'a> {
    /// The names of the root, which are none.
    pub fn root() -> PathRef<'a>
        ensures { result ≡ [] }
    {
        PathRef { text: b"" }
    }

    /// The names that are the parts of this text, none for the empty text.
    pub fn of_text(text: &'a [u8]) -> PathRef<'a>
        requires { AllByRecursion IsName (path_parts text.now) }
        ensures { result ≡ path_parts text.now }
    {
        PathRef { text }
    }

    /// The one name of these bytes.
    pub fn of_name(name: &'a [u8]) -> PathRef<'a>
        requires { IsName name.now }
        ensures { result ≡ name.now ∷ [] }
    {
        PathRef { text: name }
    }

    /// The text: the names with a `/` between each two.
    pub fn text(&self) -> &'a [u8]
        ensures same { result.now ≡ path_text self.now }
        ensures parts { path_parts result.now ≡ self.now }
        ensures names { AllByRecursion IsName self.now }
    {
        self.text
    }

    /// The same names.
    pub fn again(&self) -> PathRef<'a>
        ensures { result ≡ self.now }
    {
        PathRef { text: self.text }
    }

    /// Whether there is no name.
    pub fn is_root(&self) -> bool
        ensures { IsTrue result ↔ (self.now ≡ []) }
    {
        self.text.is_empty()
    }

    /// How many names there are.
    pub fn depth(&self) -> usize
        ensures { result ≡ length self.now }
    {
        if self.is_root() {
            0
        } else {
            count_of_slashes(self.text) + 1
        }
    }

    /// The first name, and the names below it; `None` exactly where there is no name.
    pub fn split_first(&self) -> Option<(&'a [u8], PathRef<'a>)>
        ensures { MatchOption result (self.now ≡ []) (λ r. (self.now ≡ r.0.now ∷ r.1) × IsName r.0.now) }
    {
        let text = self.text();
        if text.is_empty() {
            return None;
        }
        match split_at_byte(text, b'/') {
            None => Some((text, PathRef::root())),
            Some((first, below)) => Some((first, PathRef { text: below })),
        }
    }

    /// The names above the last one, and the last one; `None` exactly where there is no name.
    pub fn split_last(&self) -> Option<(PathRef<'a>, &'a [u8])>
        ensures { MatchOption result (self.now ≡ []) (λ r. (self.now ≡ r.0 ++ r.1.now ∷ []) × IsName r.1.now) }
    {
        let text = self.text();
        if text.is_empty() {
            return None;
        }
        match split_at_last_slash(text) {
            None => Some((PathRef::root(), text)),
            Some((above, last)) => Some((PathRef { text: above }, last)),
        }
    }

    /// All names but the last; none for the root.
    pub fn parent(&self) -> PathRef<'a>
        ensures { result ≡ parent self.now }
    {
        match self.split_last() {
            None => PathRef::root(),
            Some((above, _last)) => above,
        }
    }

    /// Whether these names are the others, or begin with them.
    pub fn starts_with(&self, other: &PathRef) -> bool
        ensures { result ≡ is_prefix other.now self.now }
    {
        let text = self.text();
        let prefix = other.text();
        begins_with(text, prefix)
    }

    /// The names after the others; `None` exactly where these do not begin with them.
    pub fn after(&self, other: &PathRef) -> Option<PathRef<'a>>
        ensures { MatchOption result (is_prefix other.now self.now ≡ false) (λ rest. self.now ≡ other.now ++ rest) }
    {
        let text = self.text();
        let prefix = other.text();
        match text_after(text, prefix) {
            None => None,
            Some(rest) => Some(PathRef { text: rest }),
        }
    }

    /// The first names, so many of them; all, where there are no more.
    pub fn prefix(&self, count: usize) -> PathRef<'a>
        ensures { result ≡ take count self.now }
    {
        if count == 0 {
            return PathRef::root();
        }
        let below = self.rest(count);
        if below.is_root() {
            return self.again();
        }
        let text = self.text();
        PathRef {
            text: before_rest(text, below.text()),
        }
    }

    /// The names after the first ones, so many of them; none, where there are no more.
    pub fn rest(&self, count: usize) -> PathRef<'a>
        ensures { result ≡ drop count self.now }
    {
        let mut rest = self.again();
        'names: for _index in 0..count {
            match rest.split_first() {
                None => return PathRef::root(),
                Some((_first, below)) => rest = below,
            }
        }
        rest
    }
}

// How many slashes a text has.
fn count_of_slashes(text: &[u8]) -> usize
    ensures { result ≡ count_by (λ b. b == 47) text.now }
{
    text.iter().filter(|byte| **byte == b'/').count()
}

// The text before its last bytes, which are those of the rest, and before the slash between.
fn before_rest<'a>(text: &'a [u8], rest: &[u8]) -> &'a [u8]
    requires { length rest.now < length text.now }
    ensures { result.now ≡ take (length text.now - (length rest.now + 1)) text.now }
{
    &text[..text.len() - (rest.len() + 1)]
}
