// Dropping a mark.
ghost use Rattle.std.specs.Prelude.{◌≡◌, [], IfOk, MatchResult};
ghost use Rattle.ext_history.specs.Marks.{is_other, others, without_mark};
ghost use Rattle.ext_history.specs.Answers.{Forgets, HistoryCause};
ghost use Rattle.ext_history.specs.Next.{ComesOf};

use crate::history_err::HistoryErr;
use crate::rolling_back::mark_of;
use ext_host::{Host, Past, Pasts};
use ext_text::OutOfMemory;
use std::alloc::Global;
use std::mem;

/// The same host without its mark of a generation. The other marks stay in their order.
///
/// The host is valid where this one was. Its files are those of this host, and its marks bring none. The work is that of copying
/// the trees.
///
/// # Errors
/// - `NoMark` with the number exactly where the host has no mark of it.
/// - `OutOfMemory` where it has one.
pub fn forget(alloc: Global, host: &Host, which: u32) -> Result<Host, HistoryErr>
    ensures says { MatchResult result (Forgets host.now which) (HistoryCause host.now which) }
    ensures comes { IfOk result (ComesOf host.now []) }
{
    match mark_of(host.past.as_slice(), which) {
        None => Err(HistoryErr::NoMark { generation: which }),
        Some(_) => Ok(without_mark(alloc, host, which)?),
    }
}

// The host without the marks of the generation.
fn without_mark(alloc: Global, host: &Host, which: u32) -> Result<Host, OutOfMemory>
    ensures { IfOk result (λ next. next ≡ without_mark which host.now) }
{
    let mut next = host.copy()?;
    let past = mem::replace(&mut next.past, Pasts::new(alloc));
    next.past = others(past, which);
    Ok(next)
}

// The marks of other generations.
fn others(marks: Pasts, generation: u32) -> Pasts
    ensures { result ≡ others generation marks }
{
    let mut rest = marks.into_vec();
    rest.retain(|mark| is_other(mark, generation));
    Pasts::from_vec(rest)
}

// Whether a mark is of another generation.
fn is_other(mark: &Past, generation: u32) -> bool
    ensures { result ≡ is_other generation mark.now }
{
    mark.generation != generation
}
