// What is published is looked at, and where it may be published, that is carried out in the depot's folder.
ghost use Rattle.std.specs.Prelude.{◌≡◌, IfErr, IfOk, IfSome};
ghost use Rattle.ext_disk.specs.Disk.{BothTold, now};
ghost use Rattle.ext_disk.specs.Fixed.{Spares};
ghost use Rattle.ext_disk.specs.Since.{Follows, Rests};
ghost use Rattle.ext_published.specs.Asked.{IsPublishAsk};
ghost use Rattle.ext_published.specs.Manifest.{with_listing};
ghost use Rattle.ext_published.specs.Payload.{listing_name};
ghost use Rattle.ext_published.specs.Places.{ArePlaces};
ghost use Rattle.ext_published.specs.Published.{text_of_payload};
ghost use Rattle.ext_publish.specs.Looking.{HoldsNow, MayPublish};
ghost use Rattle.ext_publish.specs.Out.{is_left_at, left_names, manifest_bytes};
ghost use Rattle.ext_publish.specs.Refusing.{look_digest};
ghost use Rattle.ext_publish.specs.Carrying.{Carries, CarryCause, LeftOverCause, EndsClear, EndsWritten, LookStops};
ghost use Rattle.ext_publish.specs.Filling.{FilesCause, IsOpenFor, IsReadable, is_filled_at};

use crate::filling::fill;
use crate::folders::{make_down, sync_at};
use crate::look_err::LookErr;
use crate::looking::{Look, look_at};
use crate::stop::{Stop, stop_of_clean};
use crate::switching::switch;
use ext_disk::Disk;
use ext_published::{Asked, Payload, PubRefusal};
use ext_store_files::remove_below;
use ext_text::{Name, Names, OutOfMemory, Path};
use std::alloc::Global;

/// Publishes a payload, where it may be.
pub(crate) fn publish_payload<D: Disk, O: Disk>(
    alloc: Global,
    asked: &Asked,
    payload: &Payload,
    store: &mut D,
    out: &mut O,
) -> Result<(), Stop>
    requires asked { IsPublishAsk asked.now }
    requires readable { IsReadable payload.now }
    ensures rests { Rests (D.state store.old) (D.state store.new) }
    ensures follows { Follows (O.state out.old) (O.state out.new) }
    ensures carries { BothTold (Carries result (D.state store.old) asked.now payload.now) (O.state out.old).told (O.state out.new).told }
    ensures cause { IfErr result (CarryCause payload.now (D.state store.old) (D.state store.new) (O.state out.old) (O.state out.new)) }
{
    match look_at(alloc, asked, payload, out) {
        Ok(look) => carry_out(alloc, asked, payload, &look, store, out),
        Err(refused) => Err(stop_of_look(asked, refused)),
    }
}

// Why what is asked may not be published, as a reason why the run stops.
fn stop_of_look(asked: &Asked, refused: LookErr) -> Stop
    ensures { LookStops asked.now refused result }
{
    match refused {
        LookErr::OutOfMemory => Stop::OutOfMemory,
        LookErr::OutFault => Stop::OutFault,
        LookErr::LimitPath => Stop::Refused(PubRefusal::LimitPath),
        LookErr::OutKind { path } => Stop::Refused(PubRefusal::OutKind { path }),
        LookErr::LimitText => Stop::Refused(PubRefusal::LimitText),
        LookErr::OutManifest { line } => Stop::Refused(PubRefusal::OutManifest { line }),
        LookErr::Listed => match asked.name().copy() {
            Ok(name) => Stop::Refused(PubRefusal::Listed { name }),
            Err(_) => Stop::OutOfMemory,
        },
    }
}

// Publishes what may be: left-overs go first, then all files are written and synced, and at last the manifest is switched.
fn carry_out<D: Disk, O: Disk>(
    alloc: Global,
    asked: &Asked,
    payload: &Payload,
    look: &Look,
    store: &mut D,
    out: &mut O,
) -> Result<(), Stop>
    requires asked { IsPublishAsk asked.now }
    requires readable { IsReadable payload.now }
    requires places { ArePlaces asked.now look.now.places }
    requires text { look.now.text ≡ text_of_payload payload.now }
    requires may { MayPublish (O.state out.old) asked.now payload.now }
    requires manifest { HoldsNow (O.state out.old) (λ t. look.now.manifest ≡ with_listing (manifest_bytes t asked.now)
        (look_digest payload.now) (listing_name payload.now asked.now.name)) }
    ensures rests { Rests (D.state store.old) (D.state store.new) }
    ensures follows { Follows (O.state out.old) (O.state out.new) }
    ensures carries { BothTold (Carries result (D.state store.old) asked.now payload.now) (O.state out.old).told (O.state out.new).told }
    ensures cause { IfErr result (CarryCause payload.now (D.state store.old) (D.state store.new) (O.state out.old) (O.state out.new)) }
{
    clear_left(alloc, asked, out)?;
    make_down(out, &Path::root(alloc), &asked.folder().names())?;
    write_resource(alloc, asked, payload, look, store, out)?;
    switch(out, asked, &look.places, look.manifest.bytes())
}

// Removes what an earlier run left.
fn clear_left<O: Disk>(alloc: Global, asked: &Asked, out: &mut O) -> Result<(), Stop>
    ensures spares { Spares (is_left_at asked.now) (O.state out.old) (O.state out.new) }
    ensures ends { BothTold (λ d e. EndsClear result asked.now d.places e.places) (O.state out.old).told (O.state out.new).told }
    ensures cause { IfErr result (LeftOverCause (O.state out.old) (O.state out.new)) }
{
    let names = left_names(alloc, asked)?;
    match remove_below(alloc, out, asked.folder(), names.as_slice()) {
        Ok(()) => Ok(()),
        Err(uncleaned) => Err(stop_of_clean(uncleaned)),
    }
}

// The names that an earlier run may have left: the coming manifest, the tree text and the resource.
fn left_names(alloc: Global, asked: &Asked) -> Result<Names, OutOfMemory>
    ensures { IfOk result (λ names. names ≡ left_names asked.now) }
{
    let mut names = Names::new(alloc);
    names.push(Name::of_bytes(alloc, b"SHA256SUMS.next")?)?;
    names.push(asked.tree_text_name().copy()?)?;
    names.push(asked.name().copy()?)?;
    Ok(names)
}

// Writes the resource, and syncs its names.
fn write_resource<D: Disk, O: Disk>(
    alloc: Global,
    asked: &Asked,
    payload: &Payload,
    look: &Look,
    store: &mut D,
    out: &mut O,
) -> Result<(), Stop>
    requires readable { IsReadable payload.now }
    requires places { ArePlaces asked.now look.now.places }
    requires text { look.now.text ≡ text_of_payload payload.now }
    requires open { IfSome (O.state out.old).told (λ d. IsOpenFor asked.now d.places) }
    ensures spares { Spares (is_filled_at asked.now) (O.state out.old) (O.state out.new) }
    ensures rests { Rests (D.state store.old) (D.state store.new) }
    ensures written { EndsWritten result (D.state store.old) asked.now payload.now (O.state out.new) }
    ensures cause { IfErr result (FilesCause payload.now (D.state store.old) (D.state store.new) (O.state out.old) (O.state out.new)) }
{
    fill(alloc, asked, payload, &look.places, &look.text, store, out)?;
    sync_at(out, asked.folder())
}
