// Prefixes of texts.
ghost use Rattle.std.specs.Prelude.{◌≡◌, ◌≤◌, ◌↔◌, length, take, IsTrue};
ghost use Rattle.ext_lines.specs.Prefix.{IsPrefix};

/// Whether a text begins with a prefix.
pub fn begins_with(text: &[u8], prefix: &[u8]) -> bool
    ensures { IsTrue result ↔ IsPrefix prefix.now text.now }
{
    prefix.len() <= text.len() && has_first(text, prefix)
}

// Whether the first bytes of a text, as many as the prefix has, are the prefix.
fn has_first(text: &[u8], prefix: &[u8]) -> bool
    requires { length prefix.now ≤ length text.now }
    ensures { IsTrue result ↔ (take (length prefix.now) text.now ≡ prefix.now) }
{
    &text[..prefix.len()] == prefix
}
