// Literals: the bytes of a pattern that stand for themselves.
ghost use Rattle.std.specs.Prelude.{◌≡◌};
ghost use Rattle.std.specs.List.{list_all};
ghost use Rattle.ext_lines.specs.Plain.{is_plain_text};
ghost use Rattle.ext_pattern.specs.Literal.{is_literal, is_literal_byte};

use ext_lines::plain_text;

// Whether a text may be a literal.
pub(crate) fn is_literal(text: &[u8]) -> bool
    ensures { result ≡ is_literal text.now }
{
    is_text(text) && are_literal_bytes(text)
}

// Whether a text is UTF-8 without control bytes.
fn is_text(text: &[u8]) -> bool
    ensures { result ≡ is_plain_text text.now }
{
    plain_text(text).is_some()
}

// Whether no byte is one that a literal never has.
fn are_literal_bytes(text: &[u8]) -> bool
    ensures { result ≡ list_all is_literal_byte text.now }
{
    text.iter().all(|byte| is_literal_byte(*byte))
}

// Whether a literal may have a byte.
fn is_literal_byte(byte: u8) -> bool
    ensures { result ≡ is_literal_byte byte }
{
    byte != b'/' && byte != b'@'
}
