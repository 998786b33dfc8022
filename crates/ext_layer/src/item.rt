// The items of marked lists, borrowed from the layers.
ghost use Rattle.std.specs.Prelude.{◌≡◌, ℕ, List, IfOk, Some};
ghost use Rattle.ext_layer.specs.Layered.{cuts_below};
ghost use Rattle.ext_layer.specs.Overlay.{Marked, marked, with_mark};
ghost use Rattle.ext_layer.specs.Item.{all_seen, seen};

use ext_text::{OutOfMemory, Path};
use ext_tree::Entry;
use std::alloc::Global;

// An entry with its path, and whether it cuts off what lower layers have below it.
#[derive_where(Clone, Copy)]
pub(crate) struct Item<'a, C> {
    pub(crate) pair: &'a (Path, Entry<C>),
    pub(crate) cuts: bool,
}

// What stands in a list of layers: an item where several were joined, and an entry of a single one as it is.
pub(crate) trait Lies<C> {
    // What is seen of it.
    ghost sees: { Self → List (List ℕ) × Marked C };

    // Its path.
    fn path(&self) -> &Path
        ensures { result.now ≡ (sees self.now).0 };

    // Whether it cuts off what lower layers have below it.
    fn cuts(&self) -> bool
        ensures { result ≡ (sees self.now).1.cuts };
}

impl<'a, C> Lies<C> for Item<'a, C> {
    ghost use Rattle.ext_layer.specs.Item.{seen};

    ghost sees = { seen };

    fn path(&self) -> &Path {
        &self.pair.0
    }

    fn cuts(&self) -> bool {
        self.cuts
    }
}

impl<C> Lies<C> for (Path, Entry<C>) {
    ghost use Rattle.ext_layer.specs.Overlay.{with_mark};

    ghost sees = { λ e. (e.0, with_mark e.1) };

    fn path(&self) -> &Path {
        &self.0
    }

    fn cuts(&self) -> bool {
        cuts_below(&self.1)
    }
}

// Whether an entry of a single layer lets nothing through below it: all but directories that are not opaque.
fn cuts_below<C>(entry: &Entry<C>) -> bool
    ensures { result ≡ cuts_below (Some entry.now) }
{
    !entry.is_directory() || entry.is_opaque()
}

// The items of a single layer.
pub(crate) fn items_of<'a, C>(
    alloc: Global,
    pairs: &'a [(Path, Entry<C>)],
) -> Result<Vec<Item<'a, C>>, OutOfMemory>
    ensures { IfOk result (λ items. all_seen items.items ≡ marked pairs.now) }
{
    let mut items = Vec::with_capacity(alloc, pairs.len())?;
    for pair in pairs {
        items.push(Item {
            pair,
            cuts: cuts_below(&pair.1),
        })?;
    }
    Ok(items)
}
