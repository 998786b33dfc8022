// The host with an image attached.
ghost use Rattle.std.specs.Prelude.{◌≡◌, IfOk};
ghost use Rattle.std.specs.List.{filter};
ghost use Rattle.std.specs.Ordering.{is_gt, is_lt};
ghost use Rattle.ext_lines.specs.ByteOrder.{bytes_cmp};
ghost use Rattle.ext_host.specs.Touch.{untouched_all};
ghost use Rattle.ext_units.specs.ImageName.{image_name};
ghost use Rattle.ext_port.specs.NextHost.{attachment_of, attached_host, with_attachment};

use ext_added::Ask;
use ext_host::{Attachment, Attachments, Held, Host, Listed, copy_of_merged};
use ext_text::{Name, OutOfMemory, Path, Paths, SortedPaths};
use ext_tree::Tree;
use ext_units::Image;
use std::alloc::Global;

// The host with this tree, in which something was put at these paths for the image at the place.
pub(crate) fn attached_host(
    alloc: Global,
    start: &Host,
    ask: &Ask,
    place: &Path,
    tops: SortedPaths,
    root: Tree<Held>,
) -> Result<Host, OutOfMemory>
    ensures { IfOk result (λ next. next ≡ attached_host start.now tops root (attachment_of ask.now place.now tops)) }
{
    let mut next = put_host(alloc, start, &tops, root)?;
    let attachment = attachment_of(alloc, ask, place, tops)?;
    next.attached = with_attachment(alloc, start.attached.as_slice(), attachment)?;
    Ok(next)
}

// The host with this tree, in which something was put at these paths.
fn put_host(
    alloc: Global,
    start: &Host,
    tops: &SortedPaths,
    root: Tree<Held>,
) -> Result<Host, OutOfMemory>
    ensures { IfOk result (λ next. next ≡ record start.now { root = root; kept = untouched_all tops.now start.now.kept }) }
{
    let lower = start.lower.copy()?;
    let sysext = copy_of_merged(alloc, &start.sysext)?;
    let confext = copy_of_merged(alloc, &start.confext)?;
    let mut next = start.with_trees(root, lower, sysext, confext)?;
    next.touch_all(tops);
    Ok(next)
}

// What is recorded.
fn attachment_of(
    alloc: Global,
    ask: &Ask,
    place: &Path,
    tops: SortedPaths,
) -> Result<Attachment, OutOfMemory>
    ensures { IfOk result (λ attachment. attachment ≡ attachment_of ask.now place.now tops) }
{
    let name = name_of(alloc, &ask.image)?;
    let place = place.copy()?;
    let added = Paths::from_vec(tops.into_vec());
    Ok(Attachment {
        name,
        place,
        runtime: ask.runtime,
        added,
    })
}

// The name of an image. Only the root has none, which no image is at, so that nothing but a lack of memory comes.
fn name_of(alloc: Global, image: &Image) -> Result<Name, OutOfMemory>
    ensures { IfOk result (λ name. name ≡ image_name image.now) }
{
    match Name::read(alloc, image.name()) {
        Ok(name) => Ok(name),
        Err(_) => Err(OutOfMemory),
    }
}

// The attachments and one more, by the bytes of their names.
fn with_attachment(
    alloc: Global,
    attached: &[Attachment],
    attachment: Attachment,
) -> Result<Attachments, OutOfMemory>
    ensures { IfOk result (λ all. all ≡ with_attachment attachment attached.now) }
{
    let mut all = lesser(alloc, attached, &attachment.name)?;
    let mut rest = greater(alloc, attached, &attachment.name)?;
    all.push(attachment)?;
    all.append(&mut rest)?;
    Ok(Attachments::from_vec(all))
}

// Those whose names come before the name, copied.
fn lesser(
    alloc: Global,
    attached: &[Attachment],
    name: &Name,
) -> Result<Vec<Attachment>, OutOfMemory>
    ensures { IfOk result (λ some. some.items ≡ filter (λ other. is_lt (bytes_cmp other.name name.now)) attached.now) }
{
    let mut some = Vec::new(alloc);
    'attachments: for attachment in attached {
        if comes_before(attachment, name) {
            some.push(attachment.copy_into(alloc)?)?;
        }
    }
    Ok(some)
}

// Those whose names come after the name, copied.
fn greater(
    alloc: Global,
    attached: &[Attachment],
    name: &Name,
) -> Result<Vec<Attachment>, OutOfMemory>
    ensures { IfOk result (λ some. some.items ≡ filter (λ other. is_gt (bytes_cmp other.name name.now)) attached.now) }
{
    let mut some = Vec::new(alloc);
    'attachments: for attachment in attached {
        if comes_after(attachment, name) {
            some.push(attachment.copy_into(alloc)?)?;
        }
    }
    Ok(some)
}

// Whether its name comes before the name.
fn comes_before(attachment: &Attachment, name: &Name) -> bool
    ensures { result ≡ is_lt (bytes_cmp attachment.now.name name.now) }
{
    attachment.name.cmp(name).is_lt()
}

// Whether its name comes after the name.
fn comes_after(attachment: &Attachment, name: &Name) -> bool
    ensures { result ≡ is_gt (bytes_cmp attachment.now.name name.now) }
{
    attachment.name.cmp(name).is_gt()
}
