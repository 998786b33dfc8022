// Where lines are printed to.
ghost use Rattle.std.specs.Prelude.{◌≡◌, ◌++◌, ◌∷◌, ℕ, List, [], length, OnOk};
ghost use Rattle.ext_index_lines.specs.Out.{at_most_64_bits};

use ext_lines::{OutOfMemory, allocated};
use ext_text::Text;
use std::alloc::Global;
use std::convert::Infallible;

/// Where lines are printed to: what keeps their bytes, or counts them.
pub trait Out {
    /// These bytes have been printed.
    ghost holds: { Self → List ℕ → Type 0 };

    /// Why bytes are not taken.
    type Refused: Drop;

    /// Prints bytes.
    ///
    /// # Errors
    /// Where they are not taken. What was printed is then of no use.
    fn put(&mut self, bytes: &[u8]) -> Result<(), Self::Refused>
        ensures { (before : List ℕ) → holds self.old before → OnOk result (holds self.new (before ++ bytes.now)) };

    /// Prints one byte.
    ///
    /// # Errors
    /// Where it is not taken. What was printed is then of no use.
    fn put_byte(&mut self, byte: u8) -> Result<(), Self::Refused>
        ensures { (before : List ℕ) → holds self.old before → OnOk result (holds self.new (before ++ byte ∷ [])) };
}

/// The bytes that were printed.
#[derive(Drop)]
pub struct Printed {
    bytes: Vec<u8>,
}

impl Printed {
    /// Nothing is printed so far.
    pub fn new(alloc: Global) -> Printed
        ensures { result.bytes.items ≡ [] }
    {
        Printed {
            bytes: Vec::new(alloc),
        }
    }

    /// The bytes, which are not copied.
    pub fn into_text(self) -> Text
        ensures { result ≡ self.bytes.items }
    {
        Text::from_vec(self.bytes)
    }
}

impl Out for Printed {
    ghost holds = { λ out before. out.bytes.items ≡ before };

    type Refused = OutOfMemory;

    fn put(&mut self, bytes: &[u8]) -> Result<(), OutOfMemory> {
        allocated(self.bytes.extend_from_slice(bytes))
    }

    fn put_byte(&mut self, byte: u8) -> Result<(), OutOfMemory> {
        allocated(self.bytes.push(byte))
    }
}

/// How many bytes were printed, or 18,446,744,073,709,551,615 where there are more. It takes no memory.
#[derive(Clone, Copy)]
pub struct Counted {
    count: u64,
}

impl Counted {
    /// Nothing is printed so far.
    pub fn new() -> Counted
        ensures { result.count ≡ 0 }
    {
        Counted { count: 0 }
    }

    /// The count.
    pub fn count(self) -> u64
        ensures { result ≡ self.count }
    {
        self.count
    }
}

impl Out for Counted {
    ghost holds = { λ out before. out.count ≡ at_most_64_bits (length before) };

    type Refused = Infallible;

    fn put(&mut self, bytes: &[u8]) -> Result<(), Infallible> {
        self.count = self.count.saturating_add(bytes.len() as u64);
        Ok(())
    }

    fn put_byte(&mut self, _byte: u8) -> Result<(), Infallible> {
        self.count = self.count.saturating_add(1);
        Ok(())
    }
}
