// The keys of a release file.
ghost use Rattle.std.specs.Prelude.{◌≡◌};
ghost use Rattle.std.specs.List.{list_all};
ghost use Rattle.ext_release.specs.Line.{begins_key, is_key, is_key_byte};

// Whether a text is a key.
pub(crate) fn is_key(text: &[u8]) -> bool
    ensures { result ≡ is_key text.now }
{
    match text {
        [] => false,
        [first, rest @ ..] => begins_key(*first) && are_key_bytes(rest),
    }
}

// Whether a key may begin with a byte.
fn begins_key(byte: u8) -> bool
    ensures { result ≡ begins_key byte }
{
    matches!(byte, b'A'..=b'Z' | b'_')
}

// Whether each byte may stand in a key.
fn are_key_bytes(text: &[u8]) -> bool
    ensures { result ≡ list_all is_key_byte text.now }
{
    text.iter().all(|byte| is_key_byte(*byte))
}

// Whether a byte may stand in a key.
fn is_key_byte(byte: u8) -> bool
    ensures { result ≡ is_key_byte byte }
{
    begins_key(byte) || matches!(byte, b'0'..=b'9')
}
