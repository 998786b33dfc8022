ghost use Rattle.std.specs.Prelude.{◌≡◌, ◌<◌, ◌≤◌, ◌↔◌, IsNone, IfSome};

use std::marker::Model;

/// The permission bits of an entry: octal 0 to 7777.
#[derive(Clone, Copy)]
pub struct Mode {
    bits: u16,
}

impl Model for Mode {
    ghost use Rattle.std.specs.Prelude.{ℕ, ◌≤◌};

    ghost Value = { ℕ };

    ghost view = { λ m. m.bits };

    ghost invariant = { λ m. m.bits ≤ 4095 };

    ghost inverse = { λ n. record { bits = n } };
}

impl Mode {
    /// The mode with these bits; `None` exactly above octal 7777.
    pub fn new(bits: u16) -> Option<Mode>
        ensures none { IsNone result ↔ (4095 < bits) }
        ensures some { IfSome result (λ mode. mode ≡ bits) }
    {
        if bits <= 0o7777 {
            Some(Mode { bits })
        } else {
            None
        }
    }

    /// The bits, 0 to octal 7777.
    pub fn bits(self) -> u16
        ensures same { result ≡ self }
        ensures within { result ≤ 4095 }
    {
        self.bits
    }
}
