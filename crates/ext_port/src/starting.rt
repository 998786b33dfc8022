// The host from which an image is attached.
ghost use Rattle.std.specs.Prelude.{◌≡◌, IfOk};
ghost use Rattle.ext_host.specs.Planning.{IsPlannedHost};
ghost use Rattle.ext_port.specs.Given.{IsStart};
ghost use Rattle.ext_port.specs.Starting.{cut_of, start_host, unfit};

use crate::errors::PortErr;
use ext_attached::{has_earlier, is_attached, paths_without};
use ext_host::{Held, Host};
use ext_text::{OutOfMemory, Paths};
use ext_tree::Tree;
use ext_units::Image;
use std::alloc::Global;

// A host from which an image is attached.
#[derive(Drop)]
pub struct Start<'a> {
    // The host.
    pub host: &'a Host,
    // Its base.
    pub base: Tree<Held>,
    // The paths that were cut to make it.
    pub cut: Paths,
}

// The start at the host from which the image is attached: the given one, or that without the attachments that go.
pub(crate) fn start_of<'a>(
    alloc: Global,
    host: &Host,
    next: &'a Host,
    image: &Image,
    again: bool,
) -> Result<Start<'a>, OutOfMemory>
    requires next { next.now ≡ start_host again image.now host.now }
    requires planned { IsPlannedHost host.now next.now }
    ensures host { IfOk result (λ start. start.host.now ≡ start_host again image.now host.now) }
    ensures cut { IfOk result (λ start. start.cut ≡ cut_of again image.now host.now) }
    ensures start { IfOk result IsStart }
    ensures planned { IfOk result (λ start. IsPlannedHost host.now start.host.now) }
{
    let base = next.base()?;
    // `pairs` says of the base that it is a tree.
    let _entries = base.pairs();
    let cut = cut_of(alloc, host, image, again)?;
    Ok(Start {
        host: next,
        base,
        cut,
    })
}

// The paths that are cut.
fn cut_of(alloc: Global, host: &Host, image: &Image, again: bool) -> Result<Paths, OutOfMemory>
    ensures { IfOk result (λ cut. cut ≡ cut_of again image.now host.now) }
{
    if again {
        paths_without(alloc, host, image)
    } else {
        Ok(Paths::new(alloc))
    }
}

// Why the image may not be attached, or attached anew.
pub(crate) fn unfit(host: &Host, image: &Image, again: bool) -> Option<PortErr>
    ensures { result ≡ unfit again host.now image.now }
{
    if again {
        if has_earlier(host, image) {
            None
        } else {
            Some(PortErr::NotAttached)
        }
    } else if is_attached(host, image.name()) {
        Some(PortErr::AlreadyAttached)
    } else {
        None
    }
}
