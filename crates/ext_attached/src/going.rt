// Which attachments go.
ghost use Rattle.std.specs.Prelude.{◌≡◌, IfOk};
ghost use Rattle.std.specs.List.{flat_map, list_any};
ghost use Rattle.ext_attached.specs.Going.{compared, goes, gone, staying};

use ext_host::{Attachment, Attachments, Listed};
use ext_text::{OutOfMemory, Paths};
use ext_units::first_part;
use ext_updated::append_copies;
use std::alloc::Global;

// What of the name of an attachment is compared.
#[derive(Clone, Copy, PartialEq, Eq)]
pub enum By {
    // All of it.
    Name,
    // What stands before its first `_`.
    FirstPart,
}

// What is compared of a name.
fn compared(by: By, name: &[u8]) -> &[u8]
    ensures { result.now ≡ compared by name.now }
{
    match by {
        By::Name => name,
        By::FirstPart => first_part(name),
    }
}

// Whether the attachment goes.
fn goes(by: By, text: &[u8], attachment: &Attachment) -> bool
    ensures { result ≡ goes by text.now attachment.now }
{
    compared(by, attachment.name.bytes()).cmp(text).is_eq()
}

// Whether some attachment goes.
pub(crate) fn some_goes(by: By, text: &[u8], attached: &[Attachment]) -> bool
    ensures { result ≡ list_any (goes by text.now) attached.now }
{
    attached.iter().any(|attachment| goes(by, text, attachment))
}

// The attachments that stay, copied.
pub(crate) fn staying(
    alloc: Global,
    by: By,
    text: &[u8],
    attached: &[Attachment],
) -> Result<Attachments, OutOfMemory>
    ensures { IfOk result (λ rest. rest ≡ staying by text.now attached.now) }
{
    let mut rest = Vec::new(alloc);
    'attachments: for attachment in attached {
        if !goes(by, text, attachment) {
            rest.push(attachment.copy_into(alloc)?)?;
        }
    }
    Ok(Attachments::from_vec(rest))
}

// The paths that the attachments that go added.
pub(crate) fn paths_of_gone(
    alloc: Global,
    by: By,
    text: &[u8],
    attached: &[Attachment],
) -> Result<Paths, OutOfMemory>
    ensures { IfOk result (λ paths. paths ≡ flat_map (λ attachment. attachment.added) (gone by text.now attached.now)) }
{
    let mut paths = Vec::new(alloc);
    'attachments: for attachment in attached {
        if goes(by, text, attachment) {
            append_copies(&mut paths, attachment.added.as_slice())?;
        }
    }
    Ok(Paths::from_vec(paths))
}
