//! Laws of publishing, each the contract of a function that does nothing.
ghost use Rattle.ext_publish.specs.Laws.{UnhinderedIsDone};

/// What nothing hinders is done: words that ask something, a sound store, a quiet folder, no fault, no refusal, and no more left-overs
/// than a run removes. Only memory may run out.
pub fn an_unhindered_run_is_done()
    ensures { UnhinderedIsDone }
{}
