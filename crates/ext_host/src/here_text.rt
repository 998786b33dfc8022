ghost use Rattle.std.specs.Prelude.{◌≡◌, IfOk};

use ext_text::{OutOfMemory, Text};
use std::alloc::Global;
use std::marker::Model;

/// The bytes of a file that are here, in an allocation of their own, so that other bodies take no room for them. Contracts
/// see the bytes.
#[derive(Drop)]
pub struct HereText {
    text: Box<Text>,
}

impl Model for HereText {
    ghost use Rattle.std.specs.Prelude.{ℕ, List};

    ghost Value = { List ℕ };

    ghost view = { λ h. h.text.value };
}

impl HereText {
    /// The text, moved there.
    ///
    /// # Errors
    /// `OutOfMemory` alone.
    pub fn new(alloc: Global, text: Text) -> Result<HereText, OutOfMemory>
        ensures { IfOk result (λ here. here ≡ text) }
    {
        let text = Box::new(alloc, text)?;
        Ok(HereText { text })
    }

    /// The text.
    pub fn text(&self) -> &Text
        ensures { result.now ≡ self.now }
    {
        self.text.as_ref()
    }

    /// The bytes.
    pub fn bytes(&self) -> &[u8]
        ensures { result.now ≡ self.now }
    {
        self.text().bytes()
    }

    /// An equal text.
    ///
    /// # Errors
    /// `OutOfMemory` alone.
    pub fn copy(&self) -> Result<HereText, OutOfMemory>
        ensures { IfOk result (λ copy. copy ≡ self.now) }
    {
        let text = self.text().copy()?;
        HereText::new(*Box::allocator(&self.text), text)
    }
}
