// Two trees in one, in one pass.
ghost use Rattle.std.specs.Prelude.{◌≡◌, ◌≤◌, ◌+◌, ◌++◌, ◌∷◌, [], None, not, is_some, length, take, drop, IfOk, IsTrue, OnOk};
ghost use Rattle.std.specs.FinMap.{is_sorted};
ghost use Rattle.std.specs.List.{AllByRecursion};
ghost use Rattle.ext_text.specs.Path.{path_cmp};
ghost use Rattle.ext_tree.specs.Grafting.{AnswersLimit};
ghost use Rattle.ext_tree.specs.Joining.{IsOpenTo, IsWith, begins_before, count_before, lacking, put_all, with_others};
ghost use Rattle.ext_tree.specs.Tree.{lookup};

use crate::copy::copies_of;
use crate::entry::{Entry, Held1};
use crate::tree::{MOST_ENTRIES, Tree, TreeErr};
use ext_lines::OutOfMemory;
use ext_text::Path;
use std::alloc::Global;
use std::collections::VecDeque;

impl<C: Held1 + Drop> Tree<C> {
    /// The tree of copies of all entries, and of those others that stand where this tree has nothing, which are moved. Where
    /// the others have a directory, this tree may have nothing but a directory. It costs a search for each of the others,
    /// and one pass over both.
    ///
    /// # Errors
    /// `Limit` exactly where there would be more than 262,144 entries. `OutOfMemory` may come at any time, and nothing
    /// else comes.
    pub fn with_others(&self, others: Tree<C>) -> Result<Tree<C>, TreeErr>
        requires { IsOpenTo self.now others }
        ensures same { IfOk result (λ all. all ≡ with_others self.now others) }
        ensures each { IfOk result (λ all. IsWith self.now others all) }
        ensures limit { AnswersLimit (length (with_others self.now others)) result }
    {
        let new = lacking(self, others.into_pairs());
        if self.pairs().len() + new.len() > MOST_ENTRIES {
            return Err(TreeErr::Limit);
        }
        let old = copies_of(self.allocator(), self.pairs())?;
        let pairs = joined(self.allocator(), old, new)?;
        Ok(Tree::from_pairs(pairs))
    }
}

// The new entries at whose paths the tree has nothing.
fn lacking<C: Drop>(old: &Tree<C>, mut new: Vec<(Path, Entry<C>)>) -> Vec<(Path, Entry<C>)>
    ensures { result.items ≡ lacking old.now new.items }
{
    new.retain(|entry| lacks(old, entry));
    new
}

// Whether the tree has nothing at the path of the entry.
fn lacks<C>(old: &Tree<C>, entry: &(Path, Entry<C>)) -> bool
    ensures { result ≡ not (is_some (lookup old.now entry.now.0)) }
{
    old.entry_at(&entry.0.names()).is_none()
}

/// The entries of two lists, each in path order, in one list in path order. No path stands in both, and nothing is
/// copied. One pass over both.
///
/// # Errors
/// `OutOfMemory` alone.
pub fn joined<C: Drop>(
    alloc: Global,
    first: Vec<(Path, Entry<C>)>,
    second: Vec<(Path, Entry<C>)>,
) -> Result<Vec<(Path, Entry<C>)>, OutOfMemory>
    requires first_sorted { IsTrue (is_sorted path_cmp first.items) }
    requires second_sorted { IsTrue (is_sorted path_cmp second.items) }
    requires apart { AllByRecursion (λ e. lookup second.items e.0 ≡ None) first.items }
    ensures { IfOk result (λ pairs. pairs.items ≡ put_all first.items second.items) }
{
    let mut pairs = Vec::with_capacity(alloc, first.len().saturating_add(second.len()))?;
    let mut rest = VecDeque::from(first);
    let mut others = VecDeque::from(second);
    'entries: loop {
        match rest.pop_front() {
            None => {
                move_all(&mut pairs, others)?;
                return Ok(pairs);
            }
            Some(pair) => lay(&mut pairs, pair, &mut others)?,
        }
    }
}

// Adds an entry after those of the others that come before it.
fn lay<C: Drop>(
    pairs: &mut Vec<(Path, Entry<C>)>,
    pair: (Path, Entry<C>),
    others: &mut VecDeque<(Path, Entry<C>)>,
) -> Result<(), OutOfMemory>
    ensures laid { OnOk result (pairs.new.items ≡ pairs.old.items
        ++ (take (count_before pair.0 others.old.items) others.old.items ++ pair ∷ [])) }
    ensures left { OnOk result (others.new.items ≡ drop (count_before pair.0 others.old.items) others.old.items) }
{
    move_before(pairs, others, &pair.0)?;
    pairs.push(pair)?;
    Ok(())
}

// Moves the entries that come before the path.
fn move_before<C: Drop>(
    pairs: &mut Vec<(Path, Entry<C>)>,
    others: &mut VecDeque<(Path, Entry<C>)>,
    path: &Path,
) -> Result<(), OutOfMemory>
    ensures moved { OnOk result (pairs.new.items ≡ pairs.old.items ++ take (count_before path.now others.old.items) others.old.items) }
    ensures left { OnOk result (others.new.items ≡ drop (count_before path.now others.old.items) others.old.items) }
{
    'moves: loop {
        if !begins_before(others, path) {
            return Ok(());
        }
        match others.pop_front() {
            Some(pair) => pairs.push(pair)?,
            None => unreachable!(),
        }
    }
}

// Whether the first of the entries comes before the path.
fn begins_before<C>(others: &VecDeque<(Path, Entry<C>)>, path: &Path) -> bool
    ensures { result ≡ begins_before path.now others.now.items }
{
    match others.front() {
        Some(pair) => pair.0.cmp(path).is_lt(),
        None => false,
    }
}

// Moves all entries.
fn move_all<C: Drop>(
    pairs: &mut Vec<(Path, Entry<C>)>,
    others: VecDeque<(Path, Entry<C>)>,
) -> Result<(), OutOfMemory>
    ensures { OnOk result (pairs.new.items ≡ pairs.old.items ++ others.items) }
{
    let mut rest = Vec::from(others);
    pairs.append(&mut rest)?;
    Ok(())
}
