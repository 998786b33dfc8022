// The command `layer`.
ghost use Rattle.std.specs.Prelude.{◌<◌, ◌∷◌, ◌++◌, [], length, reverse, IfOk};
ghost use Rattle.ext_intents.specs.Layer.{LayerWants, LayersWant};

use crate::intent::Intent;
use ext_cmd::{Answer, Refusal};
use ext_layer::{LayerErr, Layers, visible_entries};
use ext_text::{OutOfMemory, Text, Which};
use ext_tree::{Stamp, Tree, TreeTextErr, Trees, read_trees, write_entries_into};
use std::alloc::Global;

/// What `layer` wants, by the bytes of its source. The text is written into the memory of the source, whose bytes are
/// needed no more once the trees are read.
///
/// # Errors
/// Out of memory alone.
pub fn layer_step(alloc: Global, source: Text) -> Result<Intent, OutOfMemory>
    ensures { IfOk result (LayerWants source) }
{
    match read_trees(alloc, source.bytes()) {
        Ok(trees) => layer_trees(alloc, trees, source),
        Err(TreeTextErr::OutOfMemory) => Err(OutOfMemory),
        Err(TreeTextErr::BadTree { line }) => {
            Ok(Intent::Refuses(Refusal::BadTree { line, path: None }))
        }
    }
}

// What it wants, by the trees of the source.
fn layer_trees(alloc: Global, trees: Trees, source: Text) -> Result<Intent, OutOfMemory>
    requires { 0 < length trees }
    ensures { IfOk result (LayersWant (reverse trees)) }
{
    let mut layers = trees.into_vec();
    layers.reverse();
    let host = layers.pop().unwrap();
    layer_over(alloc, &Layers::from_vec(layers), &host, source)
}

// What it wants of layers, the topmost first, over a host.
fn layer_over(
    alloc: Global,
    layers: &Layers<Stamp>,
    host: &Tree<Stamp>,
    buffer: Text,
) -> Result<Intent, OutOfMemory>
    ensures { IfOk result (LayersWant (layers.now ++ host.now ∷ [])) }
{
    match visible_entries(alloc, layers, host) {
        Ok(entries) => {
            let text = write_entries_into(buffer, entries.as_slice())?;
            Ok(Intent::Answers(Answer::Tree(text)))
        }
        Err(LayerErr::OutOfMemory) => Err(OutOfMemory),
        Err(LayerErr::Limit) => Ok(Intent::Refuses(Refusal::Limit {
            which: Which::Entries,
        })),
    }
}
