ghost use Rattle.std.specs.Prelude.{◌≡◌, IfOk};
ghost use Rattle.ext_host.specs.Held.{HasStamp, IsStampOf};
ghost use Rattle.ext_host.specs.declared.body.Body.TheVariants as bodies;

use crate::body::Body;
use crate::depot_path::DepotPath;
use crate::here_text::HereText;
use crate::home::Home;
use crate::stamping::stamp_of;
use ext_text::OutOfMemory;
use ext_tree::{Held1, Stamp};
use std::alloc::Global;
use std::marker::Model;

/// What a host has of a file's bytes: their stamp, and where they are. Bytes that are here have the stamp. Contracts see it
/// as a record of both.
#[derive(Drop)]
pub struct Held {
    stamp: Stamp,
    body: Body,
}

impl Model for Held {
    ghost use Rattle.ext_host.specs.Held.{HasStamp, HeldFile};

    ghost Value = { HeldFile };

    ghost view = { λ h. record { stamp = h.stamp; body = h.body } };

    ghost invariant = { λ h. HasStamp h.stamp h.body };
}

impl Held {
    /// A file whose bytes are here.
    pub fn here(text: HereText) -> Held
        ensures body { result.body ≡ bodies.Here text }
        ensures stamp { IsStampOf text result.stamp }
    {
        let stamp = stamp_of(text.bytes());
        Held {
            stamp,
            body: Body::Here(text),
        }
    }

    /// A file of this stamp whose bytes a store has at the home.
    pub fn kept(stamp: Stamp, home: Home) -> Held
        ensures { result ≡ record { stamp = stamp; body = bodies.Kept home } }
    {
        Held {
            stamp,
            body: Body::Kept(home),
        }
    }

    /// A file of this stamp whose bytes the depot has at the path.
    pub fn depot(stamp: Stamp, path: DepotPath) -> Held
        ensures { result ≡ record { stamp = stamp; body = bodies.Depot path } }
    {
        Held {
            stamp,
            body: Body::Depot(path),
        }
    }

    /// How many bytes there are, and their digest.
    pub fn stamp(&self) -> &Stamp
        ensures same { result.now ≡ self.now.stamp }
        ensures has { HasStamp self.now.stamp self.now.body }
    {
        &self.stamp
    }

    /// Where the bytes are. Those that are here have the stamp.
    pub fn body(&self) -> &Body
        ensures same { result.now ≡ self.now.body }
        ensures has { HasStamp self.now.stamp self.now.body }
    {
        &self.body
    }
}

impl Held1 for Held {
    fn copy(&self, _alloc: Global) -> Result<Held, OutOfMemory> {
        let body = self.body.copy()?;
        Ok(Held {
            stamp: self.stamp,
            body,
        })
    }
}
