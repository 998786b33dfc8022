// The pick among the versions of an image.
ghost use Rattle.std.specs.Prelude.{◌≡◌, ◌↔◌, ◌++◌, ◌∷◌, ℕ, List, [], IsTrue, IfOk};
ghost use Rattle.std.specs.Option.{option_map};
ghost use Rattle.std.specs.Ordering.{is_gt};
ghost use Rattle.std.specs.List.{AllByRecursion};
ghost use Rattle.ext_text.specs.Name.{IsName};
ghost use Rattle.ext_text.specs.Path.{path_parts};
ghost use Rattle.ext_walk.specs.Walk.{Ends};
ghost use Rattle.ext_walk.specs.Leads.{LeadsToDirectory};
ghost use Rattle.ext_walk.specs.Row.{Stands};
ghost use Rattle.ext_find.specs.Pick.{CandidateAt, Picks, better_of, candidate_cmp};

use crate::content::is_link;
use crate::leading::joined;
use crate::version::version_after;
use ext_text::{Arch, OutOfMemory, Path, PathRef};
use ext_tree::Tree;
use ext_vers::order;
use ext_walk::{Next, directory_at, next_name};
use std::alloc::Global;

// A candidate: its name, and the version that this names.
#[derive(Clone, Copy)]
pub struct Candidate<'a> {
    pub(crate) name: &'a [u8],
    pub(crate) version: &'a [u8],
}

// The name of the candidate that no other exceeds. The path leads to the directory.
pub(crate) fn pick<'a, C>(
    alloc: Global,
    base: &'a Tree<C>,
    arch: Arch,
    path: &Path,
    directory: &PathRef,
    stem: &[u8],
) -> Result<Option<&'a [u8]>, OutOfMemory>
    requires { Ends base.now path.now directory.now }
    ensures { IfOk result (Picks base.now arch path.now stem.now) }
{
    // `pairs` says of the base that it is a tree.
    let _entries = base.pairs();
    let start = joined(alloc, stem, b"_")?;
    let mut best = None;
    let mut rest = base.named(directory, start.as_slice());
    'names: loop {
        match next_name(base, rest, directory) {
            None => return Ok(name_of(best)),
            Some(next) => {
                let found = candidate_at(alloc, base, arch, path, start.as_slice(), &next)?;
                best = better(best, found);
                rest = next.more;
            }
        }
    }
}

// The candidate's name.
fn name_of<'a>(candidate: Option<Candidate<'a>>) -> Option<&'a [u8]>
    ensures { result ≡ option_map (λ c. c.name) candidate.entry }
{
    match candidate {
        None => None,
        Some(best) => Some(best.name),
    }
}

// The greater of two candidates, the first where neither is.
fn better<'a>(best: Option<Candidate<'a>>, found: Option<Candidate<'a>>) -> Option<Candidate<'a>>
    ensures { result ≡ better_of best.entry found.entry }
{
    match (best, found) {
        (None, found) => found,
        (Some(old), None) => Some(old),
        (Some(old), Some(new)) => {
            if exceeds(new, old) {
                Some(new)
            } else {
                Some(old)
            }
        }
    }
}

// Whether a candidate exceeds another one.
fn exceeds(new: Candidate, old: Candidate) -> bool
    ensures { result ≡ is_gt (candidate_cmp (new.entry.version.now, new.entry.name.now) (old.entry.version.now, old.entry.name.now)) }
{
    order(new.version, old.version)
        .then_with(|| new.name.cmp(old.name))
        .is_gt()
}

// The candidate of the name at which an entry of the directory stands; the bytes before its version are the stem and `_`.
fn candidate_at<'a, C>(
    alloc: Global,
    base: &Tree<C>,
    arch: Arch,
    path: &Path,
    start: &[u8],
    next: &Next<'a, C>,
) -> Result<Option<Candidate<'a>>, OutOfMemory>
    requires { Stands base.now next.now }
    ensures { (directory : List (List ℕ)) (stem : List ℕ) → Ends base.now path.now directory → next.now.entry.now.0
        ≡ directory ++ next.now.name.now ∷ [] → start.now ≡ stem ++ 95 ∷ []
        → IfOk result (CandidateAt base.now arch path.now stem next.now.name.now) }
{
    let name = next.name;
    match version_after(name, start, arch) {
        None => Ok(None),
        Some(version) => {
            if leads_at(alloc, base, &path.names(), next)? {
                Ok(Some(Candidate { name, version }))
            } else {
                Ok(None)
            }
        }
    }
}

// Whether the name below the path leads to a directory. Only where a link stands there it has to be followed.
fn leads_at<C>(
    alloc: Global,
    base: &Tree<C>,
    path: &PathRef,
    next: &Next<C>,
) -> Result<bool, OutOfMemory>
    requires { Stands base.now next.now }
    ensures { (directory : List (List ℕ)) → Ends base.now path.now directory → next.now.entry.now.0 ≡ directory
        ++ next.now.name.now ∷ [] → IfOk result (λ leads. IsTrue leads
        ↔ LeadsToDirectory base.now (path.now ++ next.now.name.now ∷ [])) }
{
    let _entries = base.pairs();
    let (_path, entry) = next.entry;
    if is_link(entry) {
        leads_below(alloc, base, path, next.name)
    } else {
        Ok(entry.is_directory())
    }
}

// Whether the name below the path leads to a directory, where it has to be looked for.
fn leads_below<C>(
    alloc: Global,
    base: &Tree<C>,
    path: &PathRef,
    name: &[u8],
) -> Result<bool, OutOfMemory>
    requires { IsName name.now }
    ensures { IfOk result (λ leads. IsTrue leads ↔ LeadsToDirectory base.now (path.now ++ name.now ∷ [])) }
{
    let text = text_below(alloc, path, name)?;
    let names = PathRef::of_text(text.as_slice());
    Ok(directory_at(alloc, base, &names)?.is_some())
}

// The text of the path's names and of the name, which need not be within the limits of a path.
fn text_below(alloc: Global, path: &PathRef, name: &[u8]) -> Result<Vec<u8>, OutOfMemory>
    requires { IsName name.now }
    ensures parts { IfOk result (λ text. path_parts text.items ≡ path.now ++ name.now ∷ []) }
    ensures names { IfOk result (λ text. AllByRecursion IsName (path_parts text.items)) }
{
    let upper = path.text();
    if upper.is_empty() {
        return Ok(Vec::from_slice(alloc, name)?);
    }
    let above = joined(alloc, upper, b"/")?;
    joined(alloc, above.as_slice(), name)
}
