// The words after each keyword. The first of them has the place 2.
ghost use Rattle.std.specs.Prelude.{[], ◌∷◌, codes};
ghost use Rattle.ext_text.specs.Arch.{arch_name};
ghost use Rattle.ext_cmd.specs.Grammar.{IsScopeWord, TakesChosen, Then};
ghost use Rattle.ext_cmd.specs.Reading.{ReadsAfter, ReadsRest};
ghost use Rattle.ext_cmd.specs.declared.keyword.Keyword.TheVariants as keywords;

use crate::arguments::{
    no_more, read_arch, read_last_below_root, read_last_path, read_path, read_resource, read_scope,
};
use crate::command::Command;
use crate::hierarchies::read_chosen;
use crate::numbers::read_images;
use crate::views::read_view;
use crate::words::CmdErr;
use crate::words_left::WordsLeft;
use ext_text::{Arch, Text};
use std::alloc::Global;

// `init ARCH SCOPE [HIERS [HIERS]]`.
pub(crate) fn read_init(alloc: Global, more: &WordsLeft<'_>) -> Result<Command, CmdErr>
    ensures { ReadsAfter keywords.Init more.now result }
{
    match more.next() {
        None => Err(CmdErr::Usage { place: 2 }),
        Some((word, more)) => {
            let arch = read_arch(word, 2)?;
            read_init_of(alloc, arch, &more)
        }
    }
}

// `SCOPE [HIERS [HIERS]]`, after an architecture.
fn read_init_of(alloc: Global, arch: Arch, more: &WordsLeft<'_>) -> Result<Command, CmdErr>
    ensures { ReadsRest (codes "init" ∷ arch_name arch ∷ []) (Then IsScopeWord TakesChosen) more.now 3 result }
{
    match more.next() {
        None => Err(CmdErr::Usage { place: 3 }),
        Some((word, more)) => {
            let scope = read_scope(word, 3)?;
            let hierarchies = read_chosen(alloc, &more)?;
            Ok(Command::Init {
                arch,
                scope,
                hierarchies,
            })
        }
    }
}

// `import-fs RES ABS`.
pub(crate) fn read_import(alloc: Global, more: &WordsLeft<'_>) -> Result<Command, CmdErr>
    ensures { ReadsAfter keywords.ImportFs more.now result }
{
    match more.next() {
        None => Err(CmdErr::Usage { place: 2 }),
        Some((word, more)) => {
            let resource = read_resource(alloc, word, 2)?;
            let path = read_last_path(alloc, &more, 3)?;
            Ok(Command::ImportFs { resource, path })
        }
    }
}

// `remove ABS`.
pub(crate) fn read_remove(alloc: Global, more: &WordsLeft<'_>) -> Result<Command, CmdErr>
    ensures { ReadsAfter keywords.Remove more.now result }
{
    let path = read_last_below_root(alloc, more, 2)?;
    Ok(Command::Remove { path })
}

// `sysext ..`.
pub(crate) fn read_sysext(alloc: Global, more: &WordsLeft<'_>) -> Result<Command, CmdErr>
    ensures { ReadsAfter keywords.Sysext more.now result }
{
    Ok(Command::Sysext(read_view(alloc, more)?))
}

// `confext ..`.
pub(crate) fn read_confext(alloc: Global, more: &WordsLeft<'_>) -> Result<Command, CmdErr>
    ensures { ReadsAfter keywords.Confext more.now result }
{
    Ok(Command::Confext(read_view(alloc, more)?))
}

// `tree [ABS]`.
pub(crate) fn read_tree(alloc: Global, more: &WordsLeft<'_>) -> Result<Command, CmdErr>
    ensures { ReadsAfter keywords.Tree more.now result }
{
    match more.next() {
        None => Ok(Command::Tree { path: None }),
        Some((word, more)) => {
            let path = read_path(alloc, word, 2)?;
            no_more(&more, 3)?;
            Ok(Command::Tree { path: Some(path) })
        }
    }
}

// `cat ABS`.
pub(crate) fn read_cat(alloc: Global, more: &WordsLeft<'_>) -> Result<Command, CmdErr>
    ensures { ReadsAfter keywords.Cat more.now result }
{
    let path = read_last_below_root(alloc, more, 2)?;
    Ok(Command::Cat { path })
}

// `compare TEXT TEXT`.
pub(crate) fn read_compare(alloc: Global, more: &WordsLeft<'_>) -> Result<Command, CmdErr>
    ensures { ReadsAfter keywords.Compare more.now result }
{
    match more.next() {
        None => Err(CmdErr::Usage { place: 2 }),
        Some((a, more)) => match more.next() {
            None => Err(CmdErr::Usage { place: 3 }),
            Some((b, more)) => {
                no_more(&more, 4)?;
                let a = Text::from_bytes(alloc, a)?;
                let b = Text::from_bytes(alloc, b)?;
                Ok(Command::Compare(a, b))
            }
        },
    }
}

// `check`.
pub(crate) fn read_check(more: &WordsLeft<'_>) -> Result<Command, CmdErr>
    ensures { ReadsAfter keywords.Check more.now result }
{
    no_more(more, 2)?;
    Ok(Command::Check)
}

// `layer`.
pub(crate) fn read_layer(more: &WordsLeft<'_>) -> Result<Command, CmdErr>
    ensures { ReadsAfter keywords.Layer more.now result }
{
    no_more(more, 2)?;
    Ok(Command::Layer)
}

// `migrate`.
pub(crate) fn read_migrate(more: &WordsLeft<'_>) -> Result<Command, CmdErr>
    ensures { ReadsAfter keywords.Migrate more.now result }
{
    no_more(more, 2)?;
    Ok(Command::Migrate)
}

// `batch`.
pub(crate) fn read_batch(more: &WordsLeft<'_>) -> Result<Command, CmdErr>
    ensures { ReadsAfter keywords.Batch more.now result }
{
    no_more(more, 2)?;
    Ok(Command::Batch)
}

// `sample N`.
pub(crate) fn read_sample(more: &WordsLeft<'_>) -> Result<Command, CmdErr>
    ensures { ReadsAfter keywords.Sample more.now result }
{
    match more.next() {
        None => Err(CmdErr::Usage { place: 2 }),
        Some((word, more)) => {
            let images = read_images(word, 2)?;
            no_more(&more, 3)?;
            Ok(Command::Sample { images })
        }
    }
}
