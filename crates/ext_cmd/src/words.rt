// The words of commands.
ghost use Rattle.std.specs.Prelude.{◌∷◌};
ghost use Rattle.ext_cmd.specs.Reading.{ReadsAfter, ReadsWords};

use crate::command::Command;
use crate::keyword::Keyword;
use crate::marks::{read_forget, read_history, read_mark, read_rollback};
use crate::readers::{
    read_batch, read_cat, read_check, read_compare, read_confext, read_import, read_init,
    read_layer, read_migrate, read_remove, read_sample, read_sysext, read_tree,
};
use crate::services::read_portable;
use crate::updates::read_sysupdate;
use crate::words_left::WordsLeft;
use ext_text::{OutOfMemory, Words};
use std::alloc::Global;
use thiserror::Error;

/// Why words give no command.
#[derive(Clone, Copy, Debug, PartialEq, Eq, Error)]
pub enum CmdErr {
    /// An allocation failed.
    #[error("out of memory")]
    OutOfMemory,
    /// The words are no command.
    #[error("no command from word {place} on")]
    Usage {
        /// The place of the first fault, counted from 1: the least place such that no command begins with the words up to
        /// it. Where a command begins with all of them, the place after the last.
        place: u64,
    },
}

impl From<OutOfMemory> for CmdErr {
    ghost use Rattle.std.specs.Prelude.{◌≡◌};
    ghost use Rattle.ext_cmd.specs.declared.words.CmdErr.TheVariants as errors;

    ghost from_gives = { λ _ e. e ≡ errors.OutOfMemory };

    fn from(_failed: OutOfMemory) -> CmdErr {
        CmdErr::OutOfMemory
    }
}

/// The command whose words these are.
///
/// # Errors
/// `Usage` exactly where they are those of no command, with the place of the first fault. `OutOfMemory` may come at any
/// words.
pub fn read_words(alloc: Global, words: &Words) -> Result<Command, CmdErr>
    ensures { ReadsWords words.now result }
{
    match WordsLeft::of_words(words.as_slice()).next() {
        None => Err(CmdErr::Usage { place: 1 }),
        Some((word, more)) => read_from(alloc, word, &more),
    }
}

// The command of the first word and those after it.
fn read_from(alloc: Global, word: &[u8], more: &WordsLeft<'_>) -> Result<Command, CmdErr>
    ensures { ReadsWords (word.now ∷ more.now) result }
{
    match Keyword::read(word) {
        None => Err(CmdErr::Usage { place: 1 }),
        Some(keyword) => read_after(alloc, keyword, more),
    }
}

// The command of a keyword and the words after it.
pub(crate) fn read_after(
    alloc: Global,
    keyword: Keyword,
    more: &WordsLeft<'_>,
) -> Result<Command, CmdErr>
    ensures { ReadsAfter keyword more.now result }
{
    match keyword {
        Keyword::Init => read_init(alloc, more),
        Keyword::ImportFs => read_import(alloc, more),
        Keyword::Remove => read_remove(alloc, more),
        Keyword::Sysext => read_sysext(alloc, more),
        Keyword::Confext => read_confext(alloc, more),
        Keyword::Tree => read_tree(alloc, more),
        Keyword::Cat => read_cat(alloc, more),
        Keyword::Compare => read_compare(alloc, more),
        Keyword::Check => read_check(more),
        Keyword::Layer => read_layer(more),
        Keyword::Migrate => read_migrate(more),
        Keyword::Batch => read_batch(more),
        Keyword::Sample => read_sample(more),
        Keyword::Sysupdate => read_sysupdate(alloc, more),
        Keyword::Portable => read_portable(alloc, more),
        Keyword::Mark => read_mark(more),
        Keyword::History => read_history(more),
        Keyword::Rollback => read_rollback(more),
        Keyword::Forget => read_forget(more),
    }
}
