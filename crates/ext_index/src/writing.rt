// The index of a host is printed, or only its length is told.
ghost use Rattle.std.specs.Prelude.{◌≡◌, ◌++◌, ◌+◌, ℕ, List, length, map, IfOk, OnOk};
ghost use Rattle.std.specs.List.{flat_map};
ghost use Rattle.ext_lines.specs.Lines.{lines_text};
ghost use Rattle.ext_index_lines.specs.Lines.{header_line, hierarchy_line};
ghost use Rattle.ext_index_lines.specs.Out.{at_most_64_bits};
ghost use Rattle.ext_index_lines.specs.declared.text_number.TextNumber.TheVariants.{Later};
ghost use Rattle.ext_index.specs.Index.{hierarchy_lines, machine_lines, past_lines};
ghost use Rattle.ext_index.specs.ValidIndex.{written_index, written_text};

use crate::owners::host_has_owners;
use crate::printing::put_sections;
use crate::sections::{sections_of_host, sections_of_past};
use ext_host::{Host, Past};
use ext_index_lines::{Counted, Out, Printed, put_hierarchy, put_host, put_line, put_number};
use ext_text::{Extension, Name, OutOfMemory, Text};
use std::alloc::Global;

/// The index of a host in a generation, as text 3 where a line tells an owner or a capability, and else as text 2.
///
/// It is printed for any host. A file that is not kept is listed with a home in this generation, whose number is 0. So the
/// text is the index that a store holds only where every file is kept. The format is this project's own.
///
/// # Errors
/// Out of memory alone.
pub fn write_index(alloc: Global, host: &Host, generation: u32) -> Result<Text, OutOfMemory>
    ensures { IfOk result (λ text. text ≡ written_index generation host.now) }
{
    let mut out = Printed::new(alloc);
    put_index(&mut out, generation, host)?;
    Ok(out.into_text())
}

/// The number of the text that is written, 2 or 3.
pub fn written_text(host: &Host) -> u32
    ensures { result ≡ written_text host.now }
{
    if host_has_owners(host) { 3 } else { 2 }
}

/// The length of the host's index in a generation, as it is written, each file that is not kept counted with a home in this
/// generation, or 18,446,744,073,709,551,615 where it is longer. It takes no memory.
pub fn index_size(host: &Host, generation: u32) -> u64
    ensures { result ≡ at_most_64_bits (length (written_index generation host.now)) }
{
    let mut out = Counted::new();
    match put_index(&mut out, generation, host) {
        Ok(()) => out.count(),
        Err(never) => match never {},
    }
}

// Prints the index of a host.
fn put_index<O: Out>(out: &mut O, generation: u32, host: &Host) -> Result<(), O::Refused>
    ensures { (before : List ℕ) → O.holds out.old before → OnOk result (O.holds out.new (before ++ written_index generation host.now)) }
{
    put_machine(out, host_has_owners(host), host)?;
    put_sections(out, generation, sections_of_host(host))?;
    put_number(out, b"past", host.past.len() as u64)?;
    put_pasts(out, generation, host.past.as_slice())?;
    put_line(out, b"end")
}

// Prints the first line, and those of the machine.
fn put_machine<O: Out>(out: &mut O, owners: bool, host: &Host) -> Result<(), O::Refused>
    ensures { (before : List ℕ) → O.holds out.old before → OnOk result (O.holds out.new
        (before ++ lines_text (machine_lines owners host.now))) }
{
    put_line(out, header(owners))?;
    put_host(out, host.arch, host.scope)?;
    put_classes(out, host)
}

// The first line.
fn header(owners: bool) -> &'static [u8]
    ensures { result.now ≡ header_line (Later owners) }
{
    if owners {
        b"hostext-store 3"
    } else {
        b"hostext-store 2"
    }
}

// Prints the hierarchies and how many there are.
fn put_classes<O: Out>(out: &mut O, host: &Host) -> Result<(), O::Refused>
    ensures { (before : List ℕ) → O.holds out.old before → OnOk result (O.holds out.new (before ++ lines_text (hierarchy_lines host.now))) }
{
    put_number(out, b"hierarchies", count_of_hierarchies(host))?;
    put_hierarchies(out, Extension::Sysext, host.sysext_hier.as_slice())?;
    put_hierarchies(out, Extension::Confext, host.confext_hier.as_slice())
}

// How many hierarchies there are.
fn count_of_hierarchies(host: &Host) -> u64
    ensures { result ≡ length host.now.sysext_hier + length host.now.confext_hier }
{
    (host.sysext_hier.as_slice().len() + host.confext_hier.as_slice().len()) as u64
}

// Prints the lines of a class's hierarchies.
fn put_hierarchies<O: Out>(out: &mut O, class: Extension, names: &[Name]) -> Result<(), O::Refused>
    ensures { (before : List ℕ) → O.holds out.old before → OnOk result (O.holds out.new
        (before ++ lines_text (map (hierarchy_line class) names.now))) }
{
    'names: for name in names {
        put_hierarchy(out, class, name)?;
    }
    Ok(())
}

// Prints past trees.
fn put_pasts<O: Out>(out: &mut O, generation: u32, pasts: &[Past]) -> Result<(), O::Refused>
    ensures { (before : List ℕ) → O.holds out.old before → OnOk result (O.holds out.new
        (before ++ lines_text (flat_map (past_lines generation) pasts.now))) }
{
    'pasts: for past in pasts {
        put_past(out, generation, past)?;
    }
    Ok(())
}

// Prints a past tree.
fn put_past<O: Out>(out: &mut O, generation: u32, past: &Past) -> Result<(), O::Refused>
    ensures { (before : List ℕ) → O.holds out.old before → OnOk result (O.holds out.new
        (before ++ lines_text (past_lines generation past.now))) }
{
    put_number(out, b"g", u64::from(past.generation))?;
    put_sections(out, generation, sections_of_past(past))
}
