ghost use Rattle.std.specs.Prelude.{◌≡◌, None, IfOk};
ghost use Rattle.ext_host.specs.Planning.{IsPlannedHost};
ghost use Rattle.ext_host.specs.Valid.{IsValidHost};
ghost use Rattle.ext_port.specs.Given.{AreFilesOf, IsAsked, IsBodyFor, IsBodyIn, IsStart};
ghost use Rattle.ext_port.specs.Starting.{start_host, unfit};
ghost use Rattle.ext_port.specs.Wants.{AttachesBody, BarMemory, UnitsWant};

use crate::errors::PortErr;
use crate::staging::attach_units;
use crate::starting::{Start, start_of, unfit};
use ext_added::Ask;
use ext_attached::without;
use ext_host::{Held, Host, Plan};
use ext_text::Names;
use ext_tree::Tree;
use ext_units::{Body, units_of};
use std::alloc::Global;

/// An image attached.
#[derive(Drop)]
pub struct Attach {
    /// The host that has it.
    pub plan: Plan,
    /// The names of its units, by their bytes, one at least.
    pub units: Names,
}

/// The plan of the host with the image attached, whose units are looked for in a tree, with further lines for each drop-in that
/// tells a service its image. `again` takes away first what [`without`](ext_attached::without) does. After portablectl(1).
///
/// The body is that of the image that is asked for, in the host, or `again` in the host without those attachments. Each file of the
/// tree is one of the host. The work is that of sorting the units, and of a few passes over the host's entries.
///
/// # Errors
/// The first of these:
///
/// - `AlreadyAttached` exactly where not `again` and an attachment has the name of the image.
/// - `NotAttached` exactly where `again` and no attachment goes.
/// - `PrefixForbidden` and `NoUnits` as [`units_of`](ext_units::units_of) answers.
/// - `NoProfile` exactly where there is no profile of the name.
/// - `ReadOnly` with the least path that is cut or added and that is in, at or above a merged hierarchy.
/// - `UnitExists` with the least path that is added and at which something stands.
/// - `NotDirectory` with the least path above those that are added at which something stands that is no directory.
/// - `Limit` with the first limit that would be passed: `Path` by a path, a name or the text of a link, `Entries`, `File` by a
///   drop-in, or `Bytes`.
/// - `OutOfMemory`.
pub fn attach_body(
    alloc: Global,
    host: &Host,
    ask: &Ask,
    body: &Body,
    tree: &Tree<Held>,
    lines: &[u8],
    again: bool,
) -> Result<Attach, PortErr>
    requires valid { IsValidHost host.now }
    requires asked { IsAsked ask.now.image }
    requires body { IsBodyFor (start_host again ask.now.image host.now) ask.now.image body.now }
    requires files { AreFilesOf (start_host again ask.now.image host.now) tree.now }
    ensures gives { BarMemory (AttachesBody again host.now ask.now body.now tree.now lines.now) result }
    ensures next { IfOk result (λ attach. IsPlannedHost host.now attach.plan.next) }
{
    match unfit(host, &ask.image, again) {
        Some(refusal) => Err(refusal),
        None => attach_fit_body(alloc, host, ask, body, tree, lines, again),
    }
}

// The same where nothing keeps the image from being attached.
fn attach_fit_body(
    alloc: Global,
    host: &Host,
    ask: &Ask,
    body: &Body,
    tree: &Tree<Held>,
    lines: &[u8],
    again: bool,
) -> Result<Attach, PortErr>
    requires fit { unfit again host.now ask.now.image ≡ None }
    requires valid { IsValidHost host.now }
    requires asked { IsAsked ask.now.image }
    requires body { IsBodyFor (start_host again ask.now.image host.now) ask.now.image body.now }
    requires files { AreFilesOf (start_host again ask.now.image host.now) tree.now }
    ensures gives { BarMemory (AttachesBody again host.now ask.now body.now tree.now lines.now) result }
    ensures next { IfOk result (λ attach. IsPlannedHost host.now attach.plan.next) }
{
    if again {
        let next = without(alloc, host, &ask.image)?;
        attach_next_body(alloc, host, &next, ask, body, tree, lines, true)
    } else {
        attach_next_body(alloc, host, host, ask, body, tree, lines, false)
    }
}

// The same, to the host from which it is.
fn attach_next_body(
    alloc: Global,
    host: &Host,
    next: &Host,
    ask: &Ask,
    body: &Body,
    tree: &Tree<Held>,
    lines: &[u8],
    again: bool,
) -> Result<Attach, PortErr>
    requires fit { unfit again host.now ask.now.image ≡ None }
    requires next { next.now ≡ start_host again ask.now.image host.now }
    requires planned { IsPlannedHost host.now next.now }
    requires asked { IsAsked ask.now.image }
    requires body { IsBodyFor (start_host again ask.now.image host.now) ask.now.image body.now }
    requires files { AreFilesOf (start_host again ask.now.image host.now) tree.now }
    ensures gives { BarMemory (AttachesBody again host.now ask.now body.now tree.now lines.now) result }
    ensures next { IfOk result (λ attach. IsPlannedHost host.now attach.plan.next) }
{
    let start = start_of(alloc, host, next, &ask.image, again)?;
    attach_from(alloc, &start, ask, body, tree, lines)
}

// What is attached from a start.
pub(crate) fn attach_from(
    alloc: Global,
    start: &Start,
    ask: &Ask,
    body: &Body,
    tree: &Tree<Held>,
    lines: &[u8],
) -> Result<Attach, PortErr>
    requires start { IsStart start.now }
    requires asked { IsAsked ask.now.image }
    requires body { IsBodyIn start.now.host.now start.now.base ask.now.image body.now }
    requires files { AreFilesOf start.now.host.now tree.now }
    ensures gives { BarMemory (UnitsWant start.now.host.now start.now.cut start.now.base ask.now body.now tree.now lines.now) result }
    ensures next { IfOk result (λ attach. IsPlannedHost start.now.host.now attach.plan.next) }
{
    match units_of(alloc, body, tree, &ask.prefixes) {
        Ok(units) => attach_units(alloc, start, ask, body, tree, units, lines),
        Err(failed) => Err(PortErr::from(failed)),
    }
}
