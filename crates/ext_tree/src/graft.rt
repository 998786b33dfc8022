// A part hung into a tree.
ghost use Rattle.std.specs.Prelude.{◌≡◌, ◌<◌, ◌≤◌, ◌+◌, ◌-◌, ◌++◌, nat_lt, suc, length, drop, map, take, IfErr, IfOk, IsTrue, OnErr, OnOk};
ghost use Rattle.std.specs.FinMap.{is_sorted};
ghost use Rattle.std.specs.FinMap.Entries.{where_key};
ghost use Rattle.std.specs.List.{AllByRecursion, splice};
ghost use Rattle.std.specs.Ordering.{is_lt};
ghost use Rattle.ext_text.specs.Path.{IsPath, path_cmp};
ghost use Rattle.ext_tree.specs.Graft.{AnswersGraft, Fits, IsGraft, IsTooLong, made};
ghost use Rattle.ext_tree.specs.Grafting.{AnswersLimit, IsLongPath, StandsTo, added, directories, hung, joined};
ghost use Rattle.ext_tree.specs.Slices.{is_after};
ghost use Rattle.ext_tree.specs.Tree.{IsTree, most_entries};

use crate::entry::Entry;
use crate::insertion_point::entry_of;
use crate::slices::count_through;
use crate::tree::{MOST_ENTRIES, Tree, TreeErr};
use ext_attributes::Attributes;
use ext_lines::{OutOfMemory, allocated};
use ext_text::{Mode, Path, PathErr, PathRef};
use std::alloc::Global;

// The mode of made directories.
const MADE: u16 = 0o755;

impl<C: Drop> Tree<C> {
    /// Hangs the part into the tree: what stood at and below the path goes, missing parents and the path itself become
    /// directories of mode 755, and the part's entries stand below it. At the root the tree becomes the part.
    ///
    /// # Errors
    /// The first of these:
    ///
    /// - `NotDirectory` exactly where an entry that is no directory stands at a proper prefix of the path.
    /// - `Path` exactly where a path grows past its limits.
    /// - `Limit` exactly where there would be more than 262,144 entries.
    ///
    /// `OutOfMemory` may come in place of the last two, and `Exists` never. After any of them the tree is as before.
    pub fn graft(&mut self, path: &Path, part: Tree<C>) -> Result<(), TreeErr>
        ensures ok { OnOk result (IsGraft self.old path.now part self.new) }
        ensures answers { AnswersGraft self.old path.now part result }
        ensures err { OnErr result (self.new ≡ self.old) }
    {
        if path.names().is_root() {
            self.entries = part.into_pairs();
            return Ok(());
        }
        let Some(standing) = standing_at(self.pairs(), path) else {
            return Err(TreeErr::NotDirectory);
        };
        let new = added(self.allocator(), path, standing, part.into_pairs())?;
        hang(&mut self.entries, path, new)
    }
}

// How many first names of the path stand as directories, all names but the last counted; `None` where an entry that is no
// directory stands at one of them.
fn standing_at<C>(entries: &[(Path, Entry<C>)], path: &Path) -> Option<usize>
    requires tree { IsTree entries.now }
    requires below { 0 < length path.now }
    ensures { StandsTo entries.now path.now result }
{
    let names = path.names();
    let depth = names.depth();
    let mut standing = 0;
    'names: while standing + 1 < depth {
        match entry_of(entries, &names.prefix(standing + 1)) {
            None => return Some(standing),
            Some(entry) if entry.is_directory() => standing += 1,
            Some(_) => return None,
        }
    }
    Some(standing)
}

// Directories at the path and at its prefixes that do not stand, and the part's entries below the path.
fn added<C: Drop>(
    alloc: Global,
    path: &Path,
    standing: usize,
    part: Vec<(Path, Entry<C>)>,
) -> Result<Vec<(Path, Entry<C>)>, TreeErr>
    requires not_all { standing < length path.now }
    requires part { IsTree part.items }
    ensures ok { IfOk result (λ new. (new.items ≡ added path.now standing part.items) × Fits path.now part.items) }
    ensures err { IfErr result (IsLongPath (IsTooLong path.now part.items)) }
{
    let mut new = Vec::new(alloc);
    push_directories(&mut new, path, standing)?;
    push_hung(&mut new, path, part)?;
    Ok(new)
}

// Adds made directories at the path and at its prefixes that do not stand.
fn push_directories<C: Drop>(
    new: &mut Vec<(Path, Entry<C>)>,
    path: &Path,
    standing: usize,
) -> Result<(), OutOfMemory>
    requires { standing < length path.now }
    ensures { OnOk result (new.new.items ≡ new.old.items ++ directories path.now (suc standing) (length path.now - standing)) }
{
    let depth = path.depth();
    let mut count = standing;
    'names: while count < depth {
        count += 1;
        new.push(directory_at(path, count)?)?;
    }
    Ok(())
}

// A directory of mode 755 at the first names of the path, so many of them.
fn directory_at<C>(path: &Path, count: usize) -> Result<(Path, Entry<C>), OutOfMemory>
    ensures { IfOk result (λ entry. entry ≡ (take count path.now, made)) }
{
    match Mode::new(MADE) {
        Some(mode) => Ok((path.prefix(count)?, Entry::Dir(Attributes::of_mode(mode)))),
        None => unreachable!(),
    }
}

// Adds the part's entries, below the path.
fn push_hung<C: Drop>(
    new: &mut Vec<(Path, Entry<C>)>,
    path: &Path,
    part: Vec<(Path, Entry<C>)>,
) -> Result<(), TreeErr>
    requires { IsTree part.items }
    ensures ok { OnOk result ((new.new.items ≡ new.old.items ++ map (hung path.now) part.items)
        × AllByRecursion (λ e. IsPath (path.now ++ e.0)) part.items) }
    ensures err { IfErr result (IsLongPath (IsTooLong path.now part.items)) }
{
    for entry in part {
        allocated(new.push(hung(path, entry)?))?;
    }
    Ok(())
}

// The entry, below the path.
fn hung<C: Drop>(path: &Path, entry: (Path, Entry<C>)) -> Result<(Path, Entry<C>), TreeErr>
    ensures ok { IfOk result (λ new. (new ≡ hung path.now entry) × IsPath (path.now ++ entry.0)) }
    ensures err { IfErr result (IsLongPath (¬ IsPath (path.now ++ entry.0))) }
{
    match path.join(&entry.0) {
        Ok(longer) => Ok((longer, entry.1)),
        Err(PathErr::OutOfMemory) => Err(TreeErr::OutOfMemory),
        Err(_) => Err(TreeErr::Path),
    }
}

// Puts what is new in place of what stands at and below the path.
fn hang<C: Drop>(
    entries: &mut Vec<(Path, Entry<C>)>,
    path: &Path,
    new: Vec<(Path, Entry<C>)>,
) -> Result<(), TreeErr>
    requires sorted { IsTrue (is_sorted path_cmp entries.old.items) }
    requires within { length entries.old.items ≤ most_entries }
    ensures ok { OnOk result (entries.new.items ≡ joined path.now entries.old.items new.items) }
    ensures limit { AnswersLimit (length (joined path.now entries.old.items new.items)) result }
    ensures err { OnErr result (entries.new.items ≡ entries.old.items) }
{
    let (from, to) = span(entries.as_slice(), &path.names());
    let kept = from + (entries.len() - to);
    if is_over(kept, new.len()) {
        return Err(TreeErr::Limit);
    }
    Ok(replace(entries, from, to, new)?)
}

// Whether so many entries are too many beside those that are kept.
fn is_over(kept: usize, more: usize) -> bool
    requires { kept ≤ most_entries }
    ensures { result ≡ nat_lt most_entries (kept + more) }
{
    more > MOST_ENTRIES - kept
}

// Puts what is new in place of a range of the entries.
fn replace<C: Drop>(
    entries: &mut Vec<(Path, Entry<C>)>,
    from: usize,
    to: usize,
    new: Vec<(Path, Entry<C>)>,
) -> Result<(), OutOfMemory>
    requires order { from ≤ to }
    requires within { to ≤ length entries.old.items }
    ensures ok { OnOk result (entries.new.items ≡ splice entries.old.items from to new.items) }
    ensures err { OnErr result (entries.new.items ≡ entries.old.items) }
{
    entries.splice(from..to, new)?;
    Ok(())
}

// Where the entries at and below the path begin, and where they end.
fn span<C>(entries: &[(Path, Entry<C>)], names: &PathRef) -> (usize, usize)
    requires { IsTrue (is_sorted path_cmp entries.now) }
    ensures order { result.0 ≤ result.1 }
    ensures within { result.1 ≤ length entries.now }
    ensures before { take result.0 entries.now ≡ where_key path_cmp (λ q. is_lt (path_cmp q names.now)) entries.now }
    ensures after { drop result.1 entries.now ≡ where_key path_cmp (is_after names.now) entries.now }
{
    (count_before(entries, names), count_through(entries, names))
}

// How many entries stand before the path.
fn count_before<C>(entries: &[(Path, Entry<C>)], names: &PathRef) -> usize
    requires { IsTrue (is_sorted path_cmp entries.now) }
    ensures within { result ≤ length entries.now }
    ensures before { take result entries.now ≡ where_key path_cmp (λ q. is_lt (path_cmp q names.now)) entries.now }
{
    entries.partition_point(|entry| is_before(names, entry))
}

// Whether the entry stands before the path.
fn is_before<C>(names: &PathRef, entry: &(Path, Entry<C>)) -> bool
    ensures { result ≡ is_lt (path_cmp entry.now.0 names.now) }
{
    entry.0.names().cmp(names).is_lt()
}
