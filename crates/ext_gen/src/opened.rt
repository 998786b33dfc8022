ghost use Rattle.std.specs.Prelude.{◌≡◌};

use ext_host::Host;
use std::marker::Model;

/// A generation of a store: its host, its number, and the number of the text that its index is. Each file of the host is kept,
/// in this generation or in one before it, and there is an index of the host in it. Contracts see it as a record of the three.
pub struct Opened {
    host: Host,
    generation: u32,
    text: u32,
}

impl Model for Opened {
    ghost use Rattle.ext_gen.specs.Opened.{Generation, IsOpened};

    ghost Value = { Generation };

    ghost view = { λ o. record { number = o.generation; text = o.text; host = o.host } };

    ghost invariant = { λ o. IsOpened (record { number = o.generation; text = o.text; host = o.host }) };
}

impl Drop for Opened {
    fn drop(self) {
        let Opened {
            host: _,
            generation: _,
            text: _,
        } = self;
    }
}

impl Opened {
    ghost use Rattle.ext_gen.specs.Opened.{IsOpened};

    /// The generation of this number, whose index is a text of that number, 1 to 3, and lists the host.
    pub(crate) fn new(host: Host, generation: u32, text: u32) -> Opened
        requires { IsOpened (record { number = generation; text = text; host = host }) }
        ensures { result ≡ record { number = generation; text = text; host = host } }
    {
        Opened {
            host,
            generation,
            text,
        }
    }

    /// The host.
    pub fn host(&self) -> &Host
        ensures same { result.now ≡ self.now.host }
        ensures opened { IsOpened self.now }
    {
        &self.host
    }

    /// The number of the generation, from 1.
    pub fn generation(&self) -> u32
        ensures same { result ≡ self.now.number }
        ensures opened { IsOpened self.now }
    {
        self.generation
    }

    /// The number of the text that its index is: 1, or 2 with hierarchies and past trees.
    pub fn text(&self) -> u32
        ensures same { result ≡ self.now.text }
        ensures opened { IsOpened self.now }
    {
        self.text
    }

    /// The host, taken out.
    pub fn into_host(self) -> Host
        ensures same { result ≡ self.host }
        ensures opened { IsOpened self }
    {
        let Opened {
            host,
            generation: _,
            text: _,
        } = self;
        host
    }
}
