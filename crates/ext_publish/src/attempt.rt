// A run between its words and its line: the store is opened, and what is asked is looked up there and published.
ghost use Rattle.std.specs.Prelude.{◌≡◌, IfErr, IfOk, Ok, true};
ghost use Rattle.ext_disk.specs.Disk.{BothTold};
ghost use Rattle.ext_disk.specs.Since.{Follows, Rests};
ghost use Rattle.ext_gen.specs.Store.{State};
ghost use Rattle.ext_host.specs.Drawn.{HasFile};
ghost use Rattle.ext_host.specs.Held.{HeldFile};
ghost use Rattle.ext_store_files.specs.HeldFiles.{is_served};
ghost use Rattle.ext_published.specs.Asked.{IsPublishAsk};
ghost use Rattle.ext_published.specs.Payload.{GivesPayload};
ghost use Rattle.ext_publish.specs.Attempting.{Attempts, AttemptsOn, HasNoPayload, HostCause, TellsHost, TellsOpened};

use crate::carrying::publish_payload;
use crate::counting::{Made, count_of};
use crate::folders::sync_above;
use crate::stop::{Stop, stop_of_store};
use ext_disk::Disk;
use ext_gen::{Opened, open};
use ext_host::{Held, Host};
use ext_published::{Asked, Payload, PayloadErr, PubRefusal, payload_at};
use ext_tree::Tree;
use std::alloc::Global;

/// Publishes what is asked.
///
/// The store is opened first, and the folders above the manifest are synced: a rename that an earlier run left unsynced is
/// settled so, before anything rests on it.
pub(crate) fn attempt<D: Disk, O: Disk>(
    alloc: Global,
    asked: &Asked,
    store: &mut D,
    out: &mut O,
) -> Result<Made, Stop>
    requires { IsPublishAsk asked.now }
    ensures { Attempts result asked.now (D.state store.old) (D.state store.new) (O.state out.old) (O.state out.new) }
{
    match open(alloc, store) {
        Ok(opened) => publish_opened(alloc, asked, opened, store, out),
        Err(unopened) => Err(stop_of_store(unopened)),
    }
}

// Publishes what is asked of a store that was opened.
fn publish_opened<D: Disk, O: Disk>(
    alloc: Global,
    asked: &Asked,
    opened: Option<Opened>,
    store: &mut D,
    out: &mut O,
) -> Result<Made, Stop>
    requires { IsPublishAsk asked.now }
    ensures rests { Rests (D.state store.old) (D.state store.new) }
    ensures follows { Follows (O.state out.old) (O.state out.new) }
    ensures cause { IfErr result (HostCause (D.state store.old) (D.state store.new) (O.state out.old) (O.state out.new)) }
    ensures told { (s : State) → TellsOpened (D.state store.old) opened s → BothTold (AttemptsOn result s asked.now) (O.state out.old).told
        (O.state out.new).told }
{
    sync_above(alloc, out, asked.folder())?;
    match opened {
        None => Err(Stop::Refused(PubRefusal::NoStore)),
        Some(opened) => {
            let host = opened.into_host();
            publish_host(alloc, asked, &host, store, out)
        }
    }
}

// Publishes what is asked of a host.
fn publish_host<D: Disk, O: Disk>(
    alloc: Global,
    asked: &Asked,
    host: &Host,
    store: &mut D,
    out: &mut O,
) -> Result<Made, Stop>
    requires asked { IsPublishAsk asked.now }
    requires served { (held : HeldFile) → HasFile host.now.root held → is_served held.body ≡ true }
    ensures rests { Rests (D.state store.old) (D.state store.new) }
    ensures follows { Follows (O.state out.old) (O.state out.new) }
    ensures cause { IfErr result (HostCause (D.state store.old) (D.state store.new) (O.state out.old) (O.state out.new)) }
    ensures told { (s : State) → TellsHost (D.state store.old) host.now s → BothTold (AttemptsOn result s asked.now) (O.state out.old).told
        (O.state out.new).told }
{
    let payload = payload_of(alloc, &host.root, asked)?;
    let made = count_of(&payload)?;
    publish_payload(alloc, asked, &payload, store, out)?;
    Ok(made)
}

// What the host has to be published.
fn payload_of(alloc: Global, root: &Tree<Held>, asked: &Asked) -> Result<Payload, Stop>
    ensures ok { IfOk result (λ payload. GivesPayload root.now asked.now.path (Ok payload)) }
    ensures err { IfErr result (HasNoPayload root.now asked.now.path) }
{
    match payload_at(alloc, root, asked.path()) {
        Ok(payload) => Ok(payload),
        Err(PayloadErr::OutOfMemory) => Err(Stop::OutOfMemory),
        Err(PayloadErr::NoEntry) => {
            let path = asked.path().copy()?;
            Err(Stop::Refused(PubRefusal::NoEntry { path }))
        }
        Err(PayloadErr::NotFile) => {
            let path = asked.path().copy()?;
            Err(Stop::Refused(PubRefusal::NotFile { path }))
        }
    }
}
