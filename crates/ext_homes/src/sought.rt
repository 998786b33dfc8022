// Which stamps are looked for among the kept files: those of the files that a change brings.
ghost use Rattle.std.specs.Prelude.{◌≡◌, ◌<◌, IfOk};
ghost use Rattle.ext_homes.specs.Sought.{AreSought, EntryAmong, Grows, IsSought, mark_of};

use ext_host::{Body, Held};
use ext_text::{OutOfMemory, Path};
use ext_tree::{Entry, Stamp, Tree};
use std::alloc::Global;
use std::marker::Model;

/// How many marks there are: one for each two bytes.
pub(crate) const MARKS: usize = 65_536;

/// Tells the stamps of brought files from most others, by a mark for the first two bytes of each of their digests, so that few
/// kept files have to be put in order. Contracts see the marks.
#[derive(Drop)]
pub(crate) struct Sought {
    pub(crate) marks: Vec<bool>,
}

impl Model for Sought {
    ghost use Rattle.std.specs.Prelude.{◌≡◌, Bool, List, length};

    ghost Value = { List Bool };

    ghost view = { λ s. s.marks.items };

    ghost invariant = { λ s. length s.marks.items ≡ 65536 };
}

impl Sought {
    ghost use Rattle.ext_homes.specs.Sought.{is_sought};

    /// The stamps of the files that are brought by one of two trees.
    ///
    /// # Errors
    /// `OutOfMemory` alone.
    pub(crate) fn of(
        alloc: Global,
        root: &Tree<Held>,
        lower: &Tree<Held>,
    ) -> Result<Sought, OutOfMemory>
        ensures root { IfOk result (λ sought. AreSought sought root.now) }
        ensures lower { IfOk result (λ sought. AreSought sought lower.now) }
    {
        let marks = vec![in alloc; false; MARKS]?;
        let mut sought = Sought { marks };
        mark_pairs(&mut sought, root.pairs());
        mark_pairs(&mut sought, lower.pairs());
        Ok(sought)
    }

    /// Whether a stamp may be one of a brought file. It is of each that is one.
    pub(crate) fn has(&self, stamp: &Stamp) -> bool
        ensures { result ≡ is_sought self.now stamp.now }
    {
        self.marks[mark_of(stamp)]
    }

    fn mark(&mut self, stamp: &Stamp)
        ensures marked { IsSought self.new stamp.now }
        ensures grows { Grows self.old self.new }
    {
        self.marks[mark_of(stamp)] = true;
    }
}

// The number of the first two bytes of a stamp's digest.
fn mark_of(stamp: &Stamp) -> usize
    ensures value { result ≡ mark_of stamp.now }
    ensures within { result < 65536 }
{
    let digest = &stamp.digest.0;
    digest[0] as usize * 256 + digest[1] as usize
}

// Marks the stamps of the files that entries bring.
fn mark_pairs(sought: &mut Sought, pairs: &[(Path, Entry<Held>)])
    ensures marked { AreSought sought.new pairs.now }
    ensures grows { Grows sought.old sought.new }
{
    for pair in pairs {
        mark_entry(sought, &pair.1);
    }
}

// Marks the stamp of an entry's file, where that is brought.
fn mark_entry(sought: &mut Sought, entry: &Entry<Held>)
    ensures marked { EntryAmong (IsSought sought.new) entry.now }
    ensures grows { Grows sought.old sought.new }
{
    if let Entry::File(_, held) = entry
        && !matches!(held.body(), Body::Kept(_))
    {
        sought.mark(held.stamp());
    }
}
