// The items that `portable list` writes.
ghost use Rattle.std.specs.Prelude.{◌≡◌, IfOk, map, slice_get};
ghost use Rattle.std.specs.List.{find};
ghost use Rattle.std.specs.Option.{option_copied};
ghost use Rattle.ext_lines.specs.ByteOrder.{bytes_cmp};
ghost use Rattle.ext_host.specs.Valid.{AreAscending};
ghost use Rattle.ext_attached.specs.Going.{is_of_name};
ghost use Rattle.ext_attached.specs.State.{state_of};
ghost use Rattle.ext_intents.specs.Portable.{service_item, service_kind};
ghost use Rattle.ext_intents.specs.ServiceItems.{attachment_from, if_named, is_earlier_name};

use ext_attached::{State, state_with};
use ext_cmd::{ServiceItem, ServiceItems, ServiceKind};
use ext_find::{Found, FoundItem, FoundKind};
use ext_host::Attachment;
use ext_text::OutOfMemory;
use std::alloc::Global;

/// The item of each that is found, by what is attached, in the order of the names.
///
/// # Errors
/// Out of memory alone.
pub(crate) fn service_items(
    alloc: Global,
    attached: &[Attachment],
    found: Found,
) -> Result<ServiceItems, OutOfMemory>
    requires { AreAscending bytes_cmp (map (λ attachment. attachment.name) attached.now) }
    ensures { IfOk result (λ items. items ≡ map (service_item attached.now) found) }
{
    let mut items = Vec::with_capacity(alloc, found.len())?;
    for item in found.into_vec() {
        items.push(service_item(attached, item))?;
    }
    Ok(ServiceItems::from_vec(items))
}

// The item of one that is found.
fn service_item(attached: &[Attachment], item: FoundItem) -> ServiceItem
    requires { AreAscending bytes_cmp (map (λ attachment. attachment.name) attached.now) }
    ensures { result ≡ service_item attached.now item }
{
    let FoundItem {
        name,
        place,
        kind,
        ..
    } = item;
    let state = state_of(attached, name.bytes());
    let kind = service_kind(state, kind);
    ServiceItem { name, place, kind }
}

// What is said of it.
fn service_kind(state: State, kind: FoundKind) -> ServiceKind
    ensures { result ≡ service_kind state kind }
{
    match kind {
        FoundKind::Image | FoundKind::Broken(_) => ServiceKind::Image(state),
        FoundKind::Masked => ServiceKind::Masked,
        FoundKind::Raw => ServiceKind::Raw,
    }
}

// The state of the image of this name.
fn state_of(attached: &[Attachment], name: &[u8]) -> State
    requires { AreAscending bytes_cmp (map (λ attachment. attachment.name) attached.now) }
    ensures { result ≡ state_of attached.now name.now }
{
    state_with(attachment_of(attached, name))
}

// The attachment of this name, by a search by halves.
fn attachment_of<'a>(attached: &'a [Attachment], name: &[u8]) -> Option<&'a Attachment>
    requires { AreAscending bytes_cmp (map (λ attachment. attachment.name) attached.now) }
    ensures { option_copied result ≡ find (is_of_name name.now) attached.now }
{
    let place = place_from(attached, name);
    if_named(attached.get(place), name)
}

// How many of the attachments have a name that comes before this one.
fn place_from(attached: &[Attachment], name: &[u8]) -> usize
    requires { AreAscending bytes_cmp (map (λ attachment. attachment.name) attached.now) }
    ensures { slice_get attached.now result ≡ attachment_from name.now attached.now }
{
    attached.partition_point(|attachment| comes_before(attachment, name))
}

// Whether the name of the attachment comes before this one.
fn comes_before(attachment: &Attachment, name: &[u8]) -> bool
    ensures { result ≡ is_earlier_name name.now attachment.now }
{
    attachment.name.bytes().cmp(name).is_lt()
}

// The attachment, if it has this name.
fn if_named<'a>(attachment: Option<&'a Attachment>, name: &[u8]) -> Option<&'a Attachment>
    ensures { option_copied result ≡ if_named name.now (option_copied attachment.entry) }
{
    match attachment {
        None => None,
        Some(attachment) => {
            if attachment.name.bytes().cmp(name).is_eq() {
                Some(attachment)
            } else {
                None
            }
        }
    }
}
