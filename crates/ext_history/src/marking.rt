// Adding a mark.
ghost use Rattle.std.specs.Prelude.{◌≡◌, ◌≤◌, ◌<◌, ◌∷◌, [], IfOk};
ghost use Rattle.ext_host.specs.Valid.{most_past};
ghost use Rattle.ext_history.specs.Marks.{AreBefore, marked, with_mark, youngest};
ghost use Rattle.ext_history.specs.Next.{ComesOf};

use ext_host::{Host, Past, Pasts, copy_of_list, copy_of_merged};
use ext_text::OutOfMemory;
use std::alloc::Global;
use std::mem;

/// The same host with itself as a mark of this generation; of all its marks then the youngest stay, `keep` of them at the most.
/// A mark has what is seen of the host and what lies under it, the merged names, the attachments and the manifests.
///
/// The generation is above that of each mark, as the number of the current generation is in a store. `keep` is 1 to 16, which is
/// the most that a host has.
///
/// The host is valid where this one was. Its files are those of this host: a mark brings none, so that whoever prepares a
/// generation finds each file of a past tree in the store. The work is that of copying the trees.
///
/// # Errors
/// `OutOfMemory` alone.
pub fn mark(alloc: Global, host: &Host, generation: u32, keep: u32) -> Result<Host, OutOfMemory>
    requires generation { AreBefore generation host.now.past }
    requires some { 0 < keep }
    requires most { keep ≤ most_past }
    ensures ok { IfOk result (λ next. next ≡ with_mark generation keep host.now) }
    ensures comes { IfOk result (ComesOf host.now (marked generation host.now ∷ [])) }
{
    Ok(with_mark(alloc, host, generation, keep as usize)?)
}

// The same host with itself as a mark.
fn with_mark(alloc: Global, host: &Host, generation: u32, keep: usize) -> Result<Host, OutOfMemory>
    ensures { IfOk result (λ next. next ≡ with_mark generation keep host.now) }
{
    let mut next = host.copy()?;
    let mut past = mem::replace(&mut next.past, Pasts::new(alloc));
    past.push(marked(alloc, host, generation)?)?;
    next.past = youngest(past, keep)?;
    Ok(next)
}

// The host as a mark of this generation.
fn marked(alloc: Global, host: &Host, generation: u32) -> Result<Past, OutOfMemory>
    ensures { IfOk result (λ mark. mark ≡ marked generation host.now) }
{
    let root = host.root.copy()?;
    let lower = host.lower.copy()?;
    let sysext = copy_of_merged(alloc, &host.sysext)?;
    let confext = copy_of_merged(alloc, &host.confext)?;
    let attached = copy_of_list(alloc, &host.attached)?;
    let kept = copy_of_list(alloc, &host.kept)?;
    Ok(Past {
        generation,
        root,
        lower,
        sysext,
        confext,
        attached,
        kept,
    })
}

// The youngest of some marks, so many at the most. They are moved, not copied.
fn youngest(marks: Pasts, keep: usize) -> Result<Pasts, OutOfMemory>
    ensures { IfOk result (λ stay. stay ≡ youngest keep marks) }
{
    let mut older = marks.into_vec();
    let count = older.len().saturating_sub(keep);
    let stay = older.split_off(count)?;
    Ok(Pasts::from_vec(stay))
}
