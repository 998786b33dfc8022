// What is printed of a store that was opened.
ghost use Rattle.std.specs.Prelude.{◌≡◌, Some, None, IfErr, IfOk, OnErr, OnOk};
ghost use Rattle.std.specs.List.{AllByRecursion};
ghost use Rattle.std.specs.Option.{option_copied};
ghost use Rattle.ext_erofs.specs.HomePath.{homed_of};
ghost use Rattle.ext_erofs.specs.Homed.{homed_entries};
ghost use Rattle.ext_erofs.specs.Image.{FitsInode, image};
ghost use Rattle.ext_erofs.specs.Links.{first_long_link};
ghost use Rattle.ext_history.specs.Marks.{FindsMark};
ghost use Rattle.ext_mount.specs.Asked.{IsImageAsk};
ghost use Rattle.ext_mount.specs.Asking.{IsTreeAsked, LacksTree};
ghost use Rattle.ext_mount.specs.Printed.{HasWritten, StopsPrinting, WritesPrefix};
ghost use Rattle.ext_mount.specs.Printing.{PrintsOpened, PrintsRefusal, PrintsTree, PutsTree};

use crate::asked::ImageAsk;
use crate::buffer::Buffer;
use crate::refusal::{ImageRefusal, refusal_text};
use crate::status::ImageStatus;
use crate::to_sink::ToSink;
use ext_erofs::{first_long_link, put_image};
use ext_gen::Opened;
use ext_host::{Held, Host, Past};
use ext_io::{Failed, Sink, write_all};
use ext_text::OutOfMemory;
use ext_tree::Tree;
use std::alloc::Global;

/// Prints what is asked of a store that was opened.
pub(crate) fn print_opened<K: Sink>(
    alloc: Global,
    asked: ImageAsk,
    opened: Option<Opened>,
    sink: &mut K,
) -> ImageStatus
    requires { IsImageAsk asked }
    ensures { PrintsOpened opened asked (K.state sink.old) (K.state sink.new) result }
{
    match opened {
        None => tell(alloc, ImageRefusal::NoStore, sink),
        Some(opened) => print_generation(alloc, asked, &opened, sink),
    }
}

// Prints what is asked of a generation.
fn print_generation<K: Sink>(
    alloc: Global,
    asked: ImageAsk,
    opened: &Opened,
    sink: &mut K,
) -> ImageStatus
    requires { IsImageAsk asked }
    ensures { PrintsOpened (Some opened.now) asked (K.state sink.old) (K.state sink.new) result }
{
    match tree_asked(opened.host(), asked.mark) {
        Ok(tree) => print_tree(alloc, asked.time(), tree, sink),
        Err(refusal) => tell(alloc, refusal, sink),
    }
}

// The tree whose image is asked.
fn tree_asked(host: &Host, mark: Option<u32>) -> Result<&Tree<Held>, ImageRefusal>
    ensures ok { IfOk result (λ tree. IsTreeAsked host.now mark tree.now) }
    ensures err { IfErr result (LacksTree host.now mark) }
{
    match mark {
        None => Ok(&host.root),
        Some(generation) => match mark_of(host.past.as_slice(), generation) {
            None => Err(ImageRefusal::NoMark { mark: generation }),
            Some(past) => Ok(&past.root),
        },
    }
}

// The first mark of the generation, if there is one.
fn mark_of(marks: &[Past], generation: u32) -> Option<&Past>
    ensures { FindsMark generation marks.now (option_copied result) }
{
    marks.iter().find(|mark| mark.generation == generation)
}

// Prints the image of a tree, or the first link of it that is too long.
fn print_tree<K: Sink>(alloc: Global, built: u64, tree: &Tree<Held>, sink: &mut K) -> ImageStatus
    requires { AllByRecursion FitsInode (homed_entries homed_of tree.now) }
    ensures { PrintsTree tree.now built (K.state sink.old) (K.state sink.new) result }
{
    match first_long_link(tree) {
        None => put_tree(alloc, built, tree, sink),
        Some(link) => match link.copy() {
            Ok(path) => tell(alloc, ImageRefusal::LongLink { path }, sink),
            Err(_) => ImageStatus::OutOfMemory,
        },
    }
}

// Prints the image of a tree, and tells how that ends.
fn put_tree<K: Sink>(alloc: Global, built: u64, tree: &Tree<Held>, sink: &mut K) -> ImageStatus
    requires inodes { AllByRecursion FitsInode (homed_entries homed_of tree.now) }
    requires short { first_long_link tree.now ≡ None }
    ensures { PutsTree tree.now built (K.state sink.old) (K.state sink.new) result }
{
    match write_image(alloc, built, tree, sink) {
        Ok(Ok(())) => ImageStatus::Done,
        Ok(Err(_)) => ImageStatus::WriteFault,
        Err(_) => ImageStatus::OutOfMemory,
    }
}

// Writes the image of a tree. Where memory runs out, some prefix of it has been written.
fn write_image<K: Sink>(
    alloc: Global,
    built: u64,
    tree: &Tree<Held>,
    sink: &mut K,
) -> Result<Result<(), Failed>, OutOfMemory>
    requires inodes { AllByRecursion FitsInode (homed_entries homed_of tree.now) }
    requires short { first_long_link tree.now ≡ None }
    ensures ok { IfOk result (λ written. OnOk written
        (HasWritten (K.state sink.old) (K.state sink.new) (image (homed_entries homed_of tree.now) built))) }
    ensures fault { IfOk result (λ written. OnErr written
        (StopsPrinting (K.state sink.old) (K.state sink.new) (image (homed_entries homed_of tree.now) built))) }
    ensures err { OnErr result (WritesPrefix (K.state sink.old) (K.state sink.new) (image (homed_entries homed_of tree.now) built)) }
{
    let mut buffer = Buffer::new(alloc)?;
    let mut out = ToSink::new(sink, &mut buffer);
    put_image(&mut out, alloc, tree, built)?;
    Ok(out.finish())
}

// Writes the line of a refusal.
fn tell<K: Sink>(alloc: Global, refusal: ImageRefusal, sink: &mut K) -> ImageStatus
    ensures { PrintsRefusal refusal (K.state sink.old) (K.state sink.new) result }
{
    match refusal_text(alloc, &refusal) {
        Err(_) => ImageStatus::OutOfMemory,
        Ok(line) => match write_all(sink, line.bytes()) {
            Ok(()) => ImageStatus::Refused(refusal),
            Err(_) => ImageStatus::WriteFault,
        },
    }
}
