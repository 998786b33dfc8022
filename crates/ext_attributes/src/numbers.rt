// Numbers with a colon beside them.
ghost use Rattle.std.specs.Prelude.{◌≡◌, ◌≢◌, ◌≤◌, ◌++◌, ◌∷◌, ℕ, List, decimal, MatchOption, OnErr, OnOk};
ghost use Rattle.ext_lines.specs.Prefix.{AppendsPrefix};
ghost use Rattle.ext_attributes.specs.Attributes.{flag};

use ext_lines::{OutOfMemory, append_decimal, read_decimal, split_at_byte};

// The number of at most `most` that a text begins with, before a colon, and what follows the colon.
pub(crate) fn split_number(text: &[u8], most: u64) -> Option<(u64, &[u8])>
    ensures { MatchOption result
        ((n : ℕ) (rest : List ℕ) → n ≤ most → text.now ≢ decimal n ++ 58 ∷ rest)
        (λ r. (r.0 ≤ most) × (text.now ≡ decimal r.0 ++ 58 ∷ r.1.now)) }
{
    let (field, rest) = split_at_byte(text, b':')?;
    Some((read_decimal(field, most)?, rest))
}

// Whether a flag is set.
pub(crate) fn is_one(number: u64) -> bool
    requires { number ≤ 1 }
    ensures { flag result ≡ number }
{
    number == 1
}

// Adds a colon and the number of a user or a group.
pub(crate) fn append_id(text: &mut Vec<u8>, id: u32) -> Result<(), OutOfMemory>
    ensures ok { OnOk result (text.new.items ≡ text.old.items ++ 58 ∷ decimal id) }
    ensures err { OnErr result (AppendsPrefix text.old.items text.new.items (58 ∷ decimal id)) }
{
    append_number(text, u64::from(id))
}

// Adds a colon and a number.
pub(crate) fn append_number(text: &mut Vec<u8>, number: u64) -> Result<(), OutOfMemory>
    ensures ok { OnOk result (text.new.items ≡ text.old.items ++ 58 ∷ decimal number) }
    ensures err { OnErr result (AppendsPrefix text.old.items text.new.items (58 ∷ decimal number)) }
{
    append_bytes(text, b":")?;
    append_decimal(text, number)
}

// Adds bytes, or nothing.
fn append_bytes(text: &mut Vec<u8>, bytes: &[u8]) -> Result<(), OutOfMemory>
    ensures ok { OnOk result (text.new.items ≡ text.old.items ++ bytes.now) }
    ensures err { OnErr result (AppendsPrefix text.old.items text.new.items bytes.now) }
{
    text.extend_from_slice(bytes)?;
    Ok(())
}
