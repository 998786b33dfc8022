// The command `tree`.
ghost use Rattle.std.specs.Prelude.{◌≡◌, ◌≢◌, [], true, IfOk};
ghost use Rattle.ext_tree.specs.Part.{part};
ghost use Rattle.ext_tree.specs.Tree.{is_directory_or_root};
ghost use Rattle.ext_tree.specs.TreeText.{tree_text};
ghost use Rattle.ext_host.specs.Stamped.{stamps};
ghost use Rattle.ext_cmd.specs.declared.answer.Answer.TheVariants as answers;
ghost use Rattle.ext_intents.specs.Tree.{meant_path, tree_intent};
ghost use Rattle.ext_intents.specs.declared.intent.Intent.TheVariants.{Answers};

use crate::intent::Intent;
use ext_cmd::{Answer, Refusal};
use ext_host::{Held, Host, stamps};
use ext_text::{OutOfMemory, Path};
use ext_tree::{Entry, Stamp, Tree, TreeErr, write_tree};
use std::alloc::Global;

/// What `tree` wants of a host, at a path or, where none is given, at the root.
///
/// # Errors
/// Out of memory alone.
pub(crate) fn tree_step(
    alloc: Global,
    host: &Host,
    path: &Option<Path>,
) -> Result<Intent, OutOfMemory>
    ensures { IfOk result (λ intent. intent ≡ tree_intent host.now (meant_path path.now)) }
{
    match path {
        Some(path) if !path.is_root() => tree_at(alloc, host, path),
        _ => text_of(alloc, &stamps(alloc, &host.root)?),
    }
}

// What it wants at a path other than the root.
fn tree_at(alloc: Global, host: &Host, path: &Path) -> Result<Intent, OutOfMemory>
    requires { path.now ≢ [] }
    ensures { IfOk result (λ intent. intent ≡ tree_intent host.now path.now) }
{
    match host.root.get(path) {
        None => {
            let path = path.copy()?;
            Ok(Intent::Refuses(Refusal::NoEntry { path }))
        }
        Some(entry) if entry.is_directory() => text_of(
            alloc,
            &stamps_below(alloc, &host.root, path)?,
        ),
        Some(_) => {
            let path = path.copy()?;
            Ok(Intent::Refuses(Refusal::NotDirectory { path }))
        }
    }
}

// What stands below a directory, each file by its stamp.
fn stamps_below(alloc: Global, tree: &Tree<Held>, path: &Path) -> Result<Tree<Stamp>, OutOfMemory>
    requires { is_directory_or_root tree.now path.now ≡ true }
    ensures { IfOk result (λ below. below ≡ stamps (part path.now tree.now)) }
{
    match tree.part(path) {
        Ok(part) => stamps(alloc, &part),
        Err(TreeErr::OutOfMemory) => Err(OutOfMemory),
        Err(_) => unreachable!(),
    }
}

// The text of a tree as an answer.
fn text_of(alloc: Global, tree: &Tree<Stamp>) -> Result<Intent, OutOfMemory>
    ensures { IfOk result (λ intent. intent ≡ Answers (answers.Tree (tree_text tree.now))) }
{
    Ok(Intent::Answers(Answer::Tree(write_tree(alloc, tree)?)))
}
