// One pass over two lists of entries in path order.
ghost use Rattle.std.specs.Prelude.{◌≡◌, ◌++◌, ◌∷◌, [], IsTrue, OnOk};
ghost use Rattle.std.specs.FinMap.{is_sorted};
ghost use Rattle.ext_text.specs.Path.{path_cmp};
ghost use Rattle.ext_changes.specs.Told.{all_told, at_path, some_told};
ghost use Rattle.ext_changes.specs.Walking.{Adds, LeadsTo, Steps};

use crate::change::{Change, ChangeKind};
use crate::sameness::kind_of_both;
use crate::stamped::Stamped;
use ext_text::{OutOfMemory, Path};
use ext_tree::Entry;
use std::cmp::Ordering;

// What was found at the least path of two lists of entries, and what both have after it.
#[derive_where(Clone, Copy)]
struct Step<'a, A, B> {
    found: Option<Change<'a>>,
    earlier: &'a [(Path, Entry<A>)],
    later: &'a [(Path, Entry<B>)],
}

// Adds the changes between the trees of two lists of entries, each in path order. It is one pass over both.
pub(crate) fn push_changes<'a, A: Stamped, B: Stamped>(
    changes: &mut Vec<Change<'a>>,
    earlier: &'a [(Path, Entry<A>)],
    later: &'a [(Path, Entry<B>)],
) -> Result<(), OutOfMemory>
    requires earlier { IsTrue (is_sorted path_cmp earlier.now) }
    requires later { IsTrue (is_sorted path_cmp later.now) }
    ensures { OnOk result (Adds A.stamp B.stamp earlier.now later.now (all_told changes.old.items) (all_told changes.new.items)) }
{
    let mut olds = earlier;
    let mut news = later;
    'steps: loop {
        match next_step(olds, news) {
            None => return Ok(()),
            Some(step) => {
                push_found(changes, step.found)?;
                olds = step.earlier;
                news = step.later;
            }
        }
    }
}

// Adds a change, where there is one.
pub(crate) fn push_found<'a>(
    changes: &mut Vec<Change<'a>>,
    found: Option<Change<'a>>,
) -> Result<(), OutOfMemory>
    ensures { OnOk result (all_told changes.new.items ≡ all_told changes.old.items ++ some_told found.entry) }
{
    if let Some(change) = found {
        changes.push(change)?;
    }
    Ok(())
}

// The step past the least path of two lists; `None` exactly where both are empty.
fn next_step<'a, A: Stamped, B: Stamped>(
    earlier: &'a [(Path, Entry<A>)],
    later: &'a [(Path, Entry<B>)],
) -> Option<Step<'a, A, B>>
    requires earlier { IsTrue (is_sorted path_cmp earlier.now) }
    requires later { IsTrue (is_sorted path_cmp later.now) }
    ensures { Steps A.stamp B.stamp earlier.now later.now result }
{
    match earlier.split_first() {
        None => step_added(earlier, later),
        Some((old, olds)) => Some(step_past(earlier, later, old, olds)),
    }
}

// The step past the first of the later entries, where there are no earlier ones.
fn step_added<'a, A: Stamped, B: Stamped>(
    earlier: &'a [(Path, Entry<A>)],
    later: &'a [(Path, Entry<B>)],
) -> Option<Step<'a, A, B>>
    requires earlier { earlier.now ≡ [] }
    requires later { IsTrue (is_sorted path_cmp later.now) }
    ensures { Steps A.stamp B.stamp earlier.now later.now result }
{
    match later.split_first() {
        None => None,
        Some((new, news)) => Some(step_at(&new.0, Some(ChangeKind::Added), earlier, news)),
    }
}

// The step past the least path of both lists, where the earlier one has this first entry and these others.
fn step_past<'a, A: Stamped, B: Stamped>(
    earlier: &'a [(Path, Entry<A>)],
    later: &'a [(Path, Entry<B>)],
    old: &'a (Path, Entry<A>),
    olds: &'a [(Path, Entry<A>)],
) -> Step<'a, A, B>
    requires split { earlier.now ≡ old.now ∷ olds.now }
    requires earlier { IsTrue (is_sorted path_cmp earlier.now) }
    requires later { IsTrue (is_sorted path_cmp later.now) }
    ensures { LeadsTo A.stamp B.stamp earlier.now later.now result }
{
    match later.split_first() {
        None => step_at(&old.0, Some(ChangeKind::Removed), olds, later),
        Some((new, news)) => match old.0.cmp(&new.0) {
            Ordering::Less => step_at(&old.0, Some(ChangeKind::Removed), olds, later),
            Ordering::Greater => step_at(&new.0, Some(ChangeKind::Added), earlier, news),
            Ordering::Equal => step_at(&old.0, kind_of_both(&old.1, &new.1), olds, news),
        },
    }
}

// The step past a path at which what stands differs so, if it does.
fn step_at<'a, A, B>(
    path: &'a Path,
    kind: Option<ChangeKind>,
    earlier: &'a [(Path, Entry<A>)],
    later: &'a [(Path, Entry<B>)],
) -> Step<'a, A, B>
    ensures found { some_told result.found ≡ at_path path.now kind }
    ensures earlier { result.earlier.now ≡ earlier.now }
    ensures later { result.later.now ≡ later.now }
{
    Step {
        found: change_of(path, kind),
        earlier,
        later,
    }
}

// The change at a path at which what stands differs so, if it does.
pub(crate) fn change_of<'a>(path: &'a Path, kind: Option<ChangeKind>) -> Option<Change<'a>>
    ensures { some_told result ≡ at_path path.now kind }
{
    match kind {
        None => None,
        Some(kind) => Some(Change { path, kind }),
    }
}
