// The words after `sysext` and `confext`. The first of them has the place 2.
ghost use Rattle.std.specs.Prelude.{◌≡◌, ◌≢◌, ◌∷◌, ◌↔◌, IsTrue, codes};
ghost use Rattle.ext_cmd.specs.Grammar.{Any, Chooses, HasNoMore, IsForce, Maybe, TakesVerb};
ghost use Rattle.ext_cmd.specs.Keyword.{verb_text};
ghost use Rattle.ext_cmd.specs.Reading.{ReadsAfterVerb, ReadsPart, no_words};
ghost use Rattle.ext_cmd.specs.Words.{IsViewCommand, force_words, view_words};
ghost use Rattle.ext_cmd.specs.declared.keyword.Verb.TheVariants as verbs;

use crate::arguments::{no_more, read_below_root, read_last_below_root};
use crate::command::ViewCommand;
use crate::keyword::Verb;
use crate::words::CmdErr;
use crate::words_left::WordsLeft;
use std::alloc::Global;

// What is done with the extensions of a class.
pub(crate) fn read_view(alloc: Global, words: &WordsLeft<'_>) -> Result<ViewCommand, CmdErr>
    ensures { ReadsPart view_words IsViewCommand (Chooses verb_text TakesVerb) words.now 2 result }
{
    match words.next() {
        None => Err(CmdErr::Usage { place: 2 }),
        Some((word, more)) => match Verb::read(word) {
            None => Err(CmdErr::Usage { place: 2 }),
            Some(verb) => read_after(alloc, verb, &more),
        },
    }
}

// A verb and the words after it.
fn read_after(alloc: Global, verb: Verb, more: &WordsLeft<'_>) -> Result<ViewCommand, CmdErr>
    ensures { ReadsAfterVerb verb more.now result }
{
    match verb {
        Verb::List => alone(ViewCommand::List, more),
        Verb::Status => alone(ViewCommand::Status, more),
        Verb::Unmerge => alone(ViewCommand::Unmerge, more),
        Verb::Merge => read_merge(more),
        Verb::Refresh => read_refresh(more),
        Verb::Changes => read_changes(more),
        Verb::Explain => read_explain(alloc, more),
    }
}

// `merge [--force]`.
fn read_merge(more: &WordsLeft<'_>) -> Result<ViewCommand, CmdErr>
    ensures { ReadsAfterVerb verbs.Merge more.now result }
{
    let force = read_force(more)?;
    Ok(ViewCommand::Merge { force })
}

// `refresh [--force]`.
fn read_refresh(more: &WordsLeft<'_>) -> Result<ViewCommand, CmdErr>
    ensures { ReadsAfterVerb verbs.Refresh more.now result }
{
    let force = read_force(more)?;
    Ok(ViewCommand::Refresh { force })
}

// `changes [--force]`.
fn read_changes(more: &WordsLeft<'_>) -> Result<ViewCommand, CmdErr>
    ensures { ReadsAfterVerb verbs.Changes more.now result }
{
    let force = read_force(more)?;
    Ok(ViewCommand::Changes { force })
}

// `explain [--force] ABS`.
fn read_explain(alloc: Global, more: &WordsLeft<'_>) -> Result<ViewCommand, CmdErr>
    ensures { ReadsAfterVerb verbs.Explain more.now result }
{
    match more.next() {
        None => Err(CmdErr::Usage { place: 3 }),
        Some((word, rest)) => {
            if is_force(word) {
                read_forced(alloc, &rest)
            } else {
                read_unforced(alloc, word, &rest)
            }
        }
    }
}

// `ABS`, after `explain --force`.
fn read_forced(alloc: Global, rest: &WordsLeft<'_>) -> Result<ViewCommand, CmdErr>
    ensures { ReadsAfterVerb verbs.Explain (codes "--force" ∷ rest.now) result }
{
    let path = read_last_below_root(alloc, rest, 4)?;
    Ok(ViewCommand::Explain { force: true, path })
}

// A word that isn't `--force`, and those after it, after `explain`.
fn read_unforced(alloc: Global, word: &[u8], rest: &WordsLeft<'_>) -> Result<ViewCommand, CmdErr>
    requires { word.now ≢ codes "--force" }
    ensures { ReadsAfterVerb verbs.Explain (word.now ∷ rest.now) result }
{
    let path = read_below_root(alloc, word, 3)?;
    no_more(rest, 4)?;
    Ok(ViewCommand::Explain { force: false, path })
}

// A command whose verb no word follows.
fn alone(view: ViewCommand, more: &WordsLeft<'_>) -> Result<ViewCommand, CmdErr>
    ensures { ReadsPart no_words (λ v. v ≡ view) HasNoMore more.now 3 result }
{
    no_more(more, 3)?;
    Ok(view)
}

// Whether `--force` stands there.
fn read_force(words: &WordsLeft<'_>) -> Result<bool, CmdErr>
    ensures { ReadsPart force_words Any (Maybe IsForce HasNoMore) words.now 3 result }
{
    match words.next() {
        None => Ok(false),
        Some((word, more)) => {
            if !is_force(word) {
                return Err(CmdErr::Usage { place: 3 });
            }
            no_more(&more, 4)?;
            Ok(true)
        }
    }
}

// The option of `merge`, `refresh`, `changes` and `explain`.
fn is_force(word: &[u8]) -> bool
    ensures { IsTrue result ↔ (word.now ≡ codes "--force") }
{
    matches!(word, b"--force")
}
