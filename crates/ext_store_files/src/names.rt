// The names of generations, and the text of `current`.
ghost use Rattle.std.specs.Prelude.{◌≡◌, ◌≢◌, ℕ, [], ◌∷◌, ◌++◌, IfOk, MatchOption, decimal};
ghost use Rattle.ext_store_files.specs.Names.{IsGeneration, generation_name, generation_of, current_text};

use ext_host::LAST_GENERATION;
use ext_lines::{append_decimal, read_decimal};
use ext_text::OutOfMemory;
use std::alloc::Global;

// How many bytes the longest name of a generation has.
const MOST_BYTES: usize = 12;

/// The number of the generation that has this name in the store folder, `g-` and its decimal digits; `None` exactly where no
/// generation has it. The names are this project's own choice.
pub fn generation_of(name: &[u8]) -> Option<u32>
    ensures value { result ≡ generation_of name.now }
    ensures exact { MatchOption result ((n : ℕ) → IsGeneration n → name.now ≢ generation_name n)
        (λ n. IsGeneration n × (name.now ≡ generation_name n)) }
{
    numbered(name)
}

/// The number of the generation that this text of `current` names; `None` exactly where it is the text of none. The text is
/// the name of the generation and a newline.
pub fn read_current(text: &[u8]) -> Option<u32>
    ensures { MatchOption result ((n : ℕ) → IsGeneration n → text.now ≢ current_text n)
        (λ n. IsGeneration n × (text.now ≡ current_text n)) }
{
    match text {
        [name @ .., b'\n'] => generation_of(name),
        _ => None,
    }
}

// The number of the generation of this name.
fn numbered(name: &[u8]) -> Option<u32>
    ensures { MatchOption result ((n : ℕ) → IsGeneration n → name.now ≢ generation_name n)
        (λ n. IsGeneration n × (name.now ≡ generation_name n)) }
{
    match name {
        [b'g', b'-', digits @ ..] => generation_number(digits),
        _ => None,
    }
}

// The number of a generation that digits write.
fn generation_number(digits: &[u8]) -> Option<u32>
    ensures { MatchOption result ((n : ℕ) → IsGeneration n → digits.now ≢ decimal n) (λ n. IsGeneration n × (digits.now ≡ decimal n)) }
{
    match read_decimal(digits, LAST_GENERATION) {
        Some(number) if number > 0 => Some(number as u32),
        _ => None,
    }
}

/// The name of a generation.
///
/// # Errors
/// `OutOfMemory` alone.
pub(crate) fn generation_name(alloc: Global, generation: u32) -> Result<Vec<u8>, OutOfMemory>
    ensures { IfOk result (λ name. name.items ≡ generation_name generation) }
{
    let mut name = Vec::with_capacity(alloc, MOST_BYTES)?;
    name.extend_from_slice(b"g-")?;
    append_decimal(&mut name, u64::from(generation))?;
    Ok(name)
}
