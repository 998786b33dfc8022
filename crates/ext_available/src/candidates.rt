// The names of a manifest that a transfer reads as versions.
ghost use Rattle.std.specs.Prelude.{◌≡◌, ◌↔◌, ℕ, List, Some, IfOk};
ghost use Rattle.std.specs.Option.{option_map};
ghost use Rattle.ext_available.specs.Candidates.{AreOffersOf, IsListedBy, IsNamedOffer, OffersJust};
ghost use Rattle.ext_available.specs.Resource.{IsReadAs};
ghost use Rattle.ext_available.specs.declared.offer.Offer.{Offer};

use crate::offer::Offer;
use crate::patterns::{is_read_back, version_of};
use ext_lines::{OutOfMemory, allocated};
use ext_sums::Listed;
use ext_text::{Digest, Name, NameErr, Text};
use ext_transfer::{ResourceType, Transfer};
use ext_vers::Version;
use std::alloc::Global;

/// The most bytes of a name.
const MOST_BYTES: usize = 255;

/// How a name ends by which a directory is listed.
const TREE: &[u8] = b".tree";

// What lines of a manifest offer to a transfer, in their order.
pub(crate) fn candidates(
    alloc: Global,
    transfer: &Transfer,
    lines: &[Listed],
) -> Result<Vec<Offer>, OutOfMemory>
    ensures { IfOk result (λ found. AreOffersOf transfer.now lines.now found.items) }
{
    let mut found = Vec::new(alloc);
    for line in lines {
        if let Some(offer) = offer_of(alloc, transfer, line)? {
            allocated(found.push(offer))?;
        }
    }
    Ok(found)
}

// What a line offers. Nothing is copied of one whose name is no version's.
fn offer_of(alloc: Global, transfer: &Transfer, line: &Listed) -> Result<Option<Offer>, OutOfMemory>
    ensures { IfOk result (OffersJust transfer.now line.now) }
{
    let listed = line.name.bytes();
    let Some(name) = resource_of(transfer.resources, listed) else {
        return Ok(None);
    };
    match version_read(transfer, name, &line.digest)? {
        Some(version) => named_offer(alloc, name, version, line.digest),
        None => Ok(None),
    }
}

// The name of the resource that is listed by this name; `None` where none can be.
fn resource_of(resources: ResourceType, listed: &[u8]) -> Option<&[u8]>
    ensures { (name : List ℕ) → IsListedBy resources listed.now name ↔ (option_map (λ r. r.now) result ≡ Some name) }
{
    if listed.len() > MOST_BYTES {
        return None;
    }
    match resources {
        ResourceType::File => Some(listed),
        ResourceType::Directory => listed.strip_suffix(TREE),
    }
}

// The version of which a name with a digest is a resource; `None` where it is none.
fn version_read<'n>(
    transfer: &Transfer,
    name: &'n [u8],
    digest: &Digest,
) -> Result<Option<&'n [u8]>, OutOfMemory>
    ensures { IfOk result (λ found. (v : List ℕ) → IsReadAs transfer.now v name.now digest.now.0
        ↔ (option_map (λ r. r.now) found ≡ Some v)) }
{
    let Some(version) = version_of(transfer.source.patterns.as_slice(), name, digest) else {
        return Ok(None);
    };
    let is_back = is_read_back(transfer.target.patterns.as_slice(), version, digest)?;
    Ok(if is_back { Some(version) } else { None })
}

// The offer of a version by these bytes, where they are a name.
fn named_offer(
    alloc: Global,
    name: &[u8],
    version: &[u8],
    digest: Digest,
) -> Result<Option<Offer>, OutOfMemory>
    ensures { IfOk result (λ found. (o : Offer) → IsNamedOffer name.now version.now digest o ↔ (found ≡ Some o)) }
{
    match Name::read(alloc, name) {
        Ok(name) => {
            let version = Version::new(Text::from_bytes(alloc, version)?);
            Ok(Some(Offer {
                version,
                name,
                digest,
            }))
        }
        Err(NameErr::BadName) => Ok(None),
        Err(NameErr::OutOfMemory) => Err(OutOfMemory),
    }
}
