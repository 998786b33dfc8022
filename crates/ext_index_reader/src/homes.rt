ghost use Rattle.std.specs.Prelude.{◌≡◌, [], None, IfOk, IfSome, MatchBool, OnOk};
ghost use Rattle.std.specs.BTreeMap.{insert_entry, is_at};
ghost use Rattle.std.specs.Map.{lookup};
ghost use Rattle.ext_index_reader.specs.Homes.{Agrees, FileAgrees, home_cmp, noted, noted_file};

use crate::home_lists::{found_in_lists, list_before, push_at, push_list};
use ext_index_lines::Homed;
use ext_lines::OutOfMemory;
use ext_tree::{Entry, Stamp};
use std::alloc::Global;
use std::collections::BTreeMap;
use std::marker::Model;

/// The most lists of homes: a home is sought in each.
const MOST_LISTS: usize = 8;

/// The homes of the files that an index lists, each with its stamp. Contracts see them in the order of generations and of
/// the numbers of files.
///
/// An index lists the files of a generation in the order of their numbers, among files of other generations. So homes stand
/// in lists in order, and a home is added at the end of the first list whose last home comes before it. The files of a few
/// generations then take no more lists than these, and no search. Where there are the most lists and a home comes before the
/// last home of each, it goes into a map.
#[derive(Drop)]
pub(crate) struct Homes {
    lists: Vec<Vec<((u32, u32), Stamp)>>,
    others: BTreeMap<(u32, u32), Stamp>,
}

impl Model for Homes {
    ghost use Rattle.ext_index_reader.specs.Homes.{Stamps, in_order};
    ghost use Rattle.ext_index_reader.specs.HomeLists.{AreSorted, all_of};

    ghost Value = { Stamps };

    ghost view = { λ h. in_order (all_of h.lists.items) h.others.entries };

    ghost invariant = { λ h. AreSorted h.lists.items };
}

impl Homes {
    /// None so far.
    pub(crate) fn new(alloc: Global) -> Homes
        ensures { result ≡ [] }
    {
        Homes {
            lists: Vec::new(alloc),
            others: BTreeMap::new(alloc),
        }
    }

    /// Notes the home of an entry's file, and says whether the file has the stamp of its home, if there was one.
    ///
    /// # Errors
    /// Out of memory alone. What was noted is then of no use, as where the file has another stamp.
    pub(crate) fn note(&mut self, entry: &Entry<Homed>) -> Result<bool, OutOfMemory>
        ensures { IfOk result (λ agrees. MatchBool agrees (Agrees self.old entry.now
            × (self.new ≡ noted self.old entry.now)) (¬ Agrees self.old entry.now)) }
    {
        match entry {
            Entry::File(_, file) => self.note_file(file),
            Entry::Dir(_) | Entry::Opaque(_) | Entry::Link(_, _) | Entry::Hide => Ok(true),
        }
    }

    // Notes the home of a file.
    fn note_file(&mut self, file: &Homed) -> Result<bool, OutOfMemory>
        ensures { IfOk result (λ agrees. MatchBool agrees (FileAgrees self.old file.now
            × (self.new ≡ noted_file self.old file.now)) (¬ FileAgrees self.old file.now)) }
    {
        let home = (file.home.generation, file.home.file);
        match self.stamp_at(home) {
            None => {
                self.add(home, file.stamp)?;
                Ok(true)
            }
            Some(other) => Ok(is_same(other, file.stamp)),
        }
    }

    // The stamp of a home, if it was noted. To note it again would then change nothing.
    fn stamp_at(&self, home: (u32, u32)) -> Option<Stamp>
        ensures found { result ≡ lookup (is_at (home_cmp home)) self.now }
        ensures again { IfSome result (λ stamp. self.now ≡ insert_entry home_cmp self.now home stamp) }
    {
        match found_in_lists(self.lists.as_slice(), home) {
            None => self.others.get(&home).copied(),
            Some(stamp) => Some(stamp),
        }
    }

    // Notes a home that was not noted.
    fn add(&mut self, home: (u32, u32), stamp: Stamp) -> Result<(), OutOfMemory>
        requires { lookup (is_at (home_cmp home)) self.old ≡ None }
        ensures { OnOk result (self.new ≡ insert_entry home_cmp self.old home stamp) }
    {
        if let Some(index) = list_before(self.lists.as_slice(), home) {
            return push_at(&mut self.lists, index, home, stamp);
        }
        if self.lists.len() < MOST_LISTS {
            return push_list(&mut self.lists, home, stamp);
        }
        self.others.insert(home, stamp)?;
        Ok(())
    }
}

// Whether two stamps are equal.
fn is_same(one: Stamp, other: Stamp) -> bool
    ensures { MatchBool result (one ≡ other) (¬ (one ≡ other)) }
{
    one == other
}
