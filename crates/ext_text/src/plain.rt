// Text of ASCII without control bytes, which is looked at eight bytes at a time.
ghost use Rattle.std.specs.Prelude.{◌≡◌};
ghost use Rattle.std.specs.List.{list_all};
ghost use Rattle.ext_text.specs.Name.{is_plain_ascii};

// Whether each byte is one of ASCII and no control byte.
pub(crate) fn are_plain_ascii(bytes: &[u8]) -> bool
    ensures { result ≡ list_all is_plain_ascii bytes.now }
{
    let mut rest = bytes;
    'strides: loop {
        match rest.split_first_chunk::<8>() {
            None => return are_all_plain_ascii(rest),
            Some((eight, more)) => {
                if !are_eight_plain_ascii(eight) {
                    return false;
                }
                rest = more;
            }
        }
    }
}

// The same of eight bytes. Each is looked at, whatever the others are, so that a processor looks at all at once.
fn are_eight_plain_ascii(bytes: &[u8; 8]) -> bool
    ensures { result ≡ list_all is_plain_ascii bytes.now }
{
    let mut all = true;
    'bytes: for byte in bytes {
        all = is_plain_ascii(*byte) & all;
    }
    all
}

// The same, by a look at each byte in turn.
fn are_all_plain_ascii(bytes: &[u8]) -> bool
    ensures { result ≡ list_all is_plain_ascii bytes.now }
{
    bytes.iter().all(|byte| is_plain_ascii(*byte))
}

// A byte of ASCII that is no control byte.
fn is_plain_ascii(byte: u8) -> bool
    ensures { result ≡ is_plain_ascii byte }
{
    byte >= b' ' && byte < 0x7F
}
