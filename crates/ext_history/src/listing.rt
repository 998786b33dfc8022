// The marks of a host, listed.
ghost use Rattle.std.specs.Prelude.{◌≡◌, map, IfOk};
ghost use Rattle.ext_history.specs.History.{files_in, history_of, listed};

use crate::Marks;
use crate::marks::Mark;
use ext_host::{Held, Host, Past};
use ext_text::{OutOfMemory, Path};
use ext_tree::Entry;
use std::alloc::Global;

/// The marks of a host, the youngest first, each with the number of its generation and with how many entries were seen and how
/// many of them are files. The work is that of one pass over the entries that the marks have as seen.
///
/// # Errors
/// `OutOfMemory` alone.
#[tactic(auto, using(crate::proofs::ListLemmas::map_reverse))]
pub fn history(alloc: Global, host: &Host) -> Result<Marks, OutOfMemory>
    ensures { IfOk result (λ marks. marks ≡ history_of host.now) }
{
    let mut marks = all_listed(alloc, host.past.as_slice())?;
    marks.reverse();
    Ok(Marks::from_vec(marks))
}

// Past trees as they are listed, in their order.
fn all_listed(alloc: Global, pasts: &[Past]) -> Result<Vec<Mark>, OutOfMemory>
    ensures { IfOk result (λ marks. marks.items ≡ map listed pasts.now) }
{
    let mut marks = Vec::with_capacity(alloc, pasts.len())?;
    'pasts: for past in pasts {
        marks.push(listed(past))?;
    }
    Ok(marks)
}

// A past tree as it is listed.
fn listed(past: &Past) -> Mark
    ensures { result ≡ listed past.now }
{
    Mark {
        generation: past.generation,
        entries: past.root.entries(),
        files: files_in(past.root.pairs()),
    }
}

// How many files there are.
fn files_in(pairs: &[(Path, Entry<Held>)]) -> u64
    ensures { result ≡ files_in pairs.now }
{
    let mut files = 0;
    'pairs: for pair in pairs {
        if pair.1.is_file() {
            files += 1;
        }
    }
    files
}
