// The marked list of a list of layers, joined by halves: so each entry is moved as often as the list can be halved.
ghost use Rattle.std.specs.Prelude.{◌∷◌, [], IfOk};
ghost use Rattle.ext_layer.specs.Joining.{Joins};
ghost use Rattle.ext_layer.specs.Item.{all_seen};

use crate::item::{Item, items_of};
use crate::overlay::merged;
use ext_text::OutOfMemory;
use ext_tree::Tree;
use std::alloc::Global;

// The marked list of the layers, topmost first.
pub(crate) fn joined<'a, C>(
    alloc: Global,
    layers: &'a [Tree<C>],
) -> Result<Vec<Item<'a, C>>, OutOfMemory>
    ensures { IfOk result (λ items. Joins layers.now (all_seen items.items)) }
{
    match layers {
        [] => Ok(Vec::new(alloc)),
        [only] => items_of_tree(alloc, only),
        _ => {
            let (top, bottom) = layers.split_at(layers.len() / 2);
            let upper = joined(alloc, top)?;
            let lower = joined(alloc, bottom)?;
            merged(alloc, upper.as_slice(), lower.as_slice())
        }
    }
}

// The marked list of a single tree.
pub(crate) fn items_of_tree<'a, C>(
    alloc: Global,
    tree: &'a Tree<C>,
) -> Result<Vec<Item<'a, C>>, OutOfMemory>
    ensures { IfOk result (λ items. Joins (tree.now ∷ []) (all_seen items.items)) }
{
    items_of(alloc, tree.pairs())
}
