// The look of a run.
ghost use Rattle.std.specs.Prelude.{◌≡◌, IfErr, IfOk, OnOk};
ghost use Rattle.ext_disk.specs.Since.{Rests};
ghost use Rattle.ext_published.specs.Manifest.{with_listing};
ghost use Rattle.ext_published.specs.Payload.{listing_name};
ghost use Rattle.ext_published.specs.Places.{ArePlaces};
ghost use Rattle.ext_published.specs.Published.{text_of_payload};
ghost use Rattle.ext_publish.specs.Out.{manifest_bytes};
ghost use Rattle.ext_publish.specs.Refusing.{HasDepotPaths, look_digest};
ghost use Rattle.ext_publish.specs.Looking.{ChecksPayload, HoldsNow, LookCause, MayPublish, NoPaths};

use crate::kinds::look_at_kinds;
use crate::look_err::LookErr;
use crate::manifests::{new_manifest, old_manifest, short_text};
use ext_disk::Disk;
use ext_published::{Asked, Payload, Places, PlacesErr, check_files, places_of};
use ext_text::{Path, Text};
use std::alloc::Global;

/// What may be published, and how: nothing stands in its way.
#[derive(Drop)]
pub(crate) struct Look {
    /// The text of a directory's tree.
    pub(crate) text: Option<Text>,
    /// Where the resource stands in the depot.
    pub(crate) places: Places,
    /// The manifest with the new line.
    pub(crate) manifest: Text,
}

/// Looks whether a payload may be published as is asked: its paths are within their limits, nothing of the wrong kind stands in
/// the depot's folder, the texts are short enough, and the manifest is one that does not list it.
///
/// # Errors
/// The first of these that fails; a fault of the disk, only where it counted one; out of memory. The disk is as before.
pub(crate) fn look_at<O: Disk>(
    alloc: Global,
    asked: &Asked,
    payload: &Payload,
    out: &mut O,
) -> Result<Look, LookErr>
    ensures places { IfOk result (λ look. ArePlaces asked.now look.places) }
    ensures text { IfOk result (λ look. look.text ≡ text_of_payload payload.now) }
    ensures may { OnOk result (MayPublish (O.state out.old) asked.now payload.now) }
    ensures manifest { IfOk result (λ look. HoldsNow (O.state out.old) (λ t. look.manifest ≡ with_listing (manifest_bytes t asked.now)
        (look_digest payload.now) (listing_name payload.now asked.now.name))) }
    ensures rests { Rests (O.state out.old) (O.state out.new) }
    ensures cause { IfErr result (LookCause (O.state out.old) (O.state out.new) asked.now payload.now) }
{
    let places = paths_of(asked, payload)?;
    look_at_kinds(alloc, out, asked, &places.manifest)?;
    let text = short_text(alloc, payload)?;
    let old = old_manifest(alloc, out, asked, &places.manifest)?;
    let manifest = new_manifest(alloc, asked, payload, &text, old)?;
    Ok(Look {
        text,
        places,
        manifest,
    })
}

// The paths of what is asked, where all are within the limits, those of a directory's files among them.
fn paths_of(asked: &Asked, payload: &Payload) -> Result<Places, LookErr>
    ensures ok { IfOk result (λ places. ArePlaces asked.now places × HasDepotPaths asked.now payload.now) }
    ensures err { IfErr result (NoPaths asked.now payload.now) }
{
    let places = places_of(asked)?;
    check_payload(&places.resource, payload)?;
    Ok(places)
}

// Looks at the paths of a directory's files.
fn check_payload(resource: &Path, payload: &Payload) -> Result<(), PlacesErr>
    ensures { ChecksPayload resource.now payload.now result }
{
    match payload {
        Payload::Directory(tree) => check_files(resource, tree),
        Payload::File(_) => Ok(()),
    }
}
