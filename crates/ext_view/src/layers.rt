// The layers of a view: what images have at the hierarchies, once for each image.
ghost use Rattle.std.specs.Prelude.{◌≡◌, map, IfOk, OnOk};
ghost use Rattle.std.specs.List.{AllByRecursion};
ghost use Rattle.ext_tree.specs.Part.{part};
ghost use Rattle.ext_layer.specs.Joining.{SayTheSame};
ghost use Rattle.ext_view.specs.Inside.{inside};
ghost use Rattle.ext_view.specs.Parts.{AreAdded, AreEndsOf, AreLayersOf, LeadsItem, SaysToo, part_below};

use crate::image::image_at;
use crate::inside::copies_inside;
use crate::surveyed::SurveyItem;
use ext_host::Held;
use ext_layer::Layers;
use ext_text::{Name, OutOfMemory, PathRef};
use ext_tree::Tree;
use std::alloc::Global;
use std::collections::BTreeSet;

// The images whose parts are among the layers, by their names in the base.
type Added<'a> = BTreeSet<PathRef<'a>>;

// What the images of the items have at the hierarchies, the last image first. Where the places of several items lead to one
// image, the last of them alone has a layer: under that one the others would show nothing.
pub(crate) fn layers_of(
    alloc: Global,
    base: &Tree<Held>,
    hierarchies: &[Name],
    items: &[SurveyItem],
) -> Result<Layers<Held>, OutOfMemory>
    requires { AllByRecursion (LeadsItem base.now) items.now }
    ensures { IfOk result (AreLayersOf base.now hierarchies.now items.now) }
{
    let mut images = images_of(alloc, base, items)?;
    images.reverse();
    let layers = parts_of(alloc, base, hierarchies, images.as_slice())?;
    Ok(Layers::from_vec(layers))
}

// The names of the directories to which the places of the items lead.
fn images_of<'a>(
    alloc: Global,
    base: &'a Tree<Held>,
    items: &[SurveyItem],
) -> Result<Vec<PathRef<'a>>, OutOfMemory>
    requires { AllByRecursion (LeadsItem base.now) items.now }
    ensures { IfOk result (λ images. AreEndsOf base.now items.now images.items) }
{
    let mut images = Vec::with_capacity(alloc, items.len())?;
    for item in items {
        images.push(image_at(alloc, base, &item.place)?)?;
    }
    Ok(images)
}

// What these images have at the hierarchies, the first one on top. An image that comes again is left out.
fn parts_of(
    alloc: Global,
    base: &Tree<Held>,
    hierarchies: &[Name],
    images: &[PathRef],
) -> Result<Vec<Tree<Held>>, OutOfMemory>
    ensures { IfOk result (λ layers. SayTheSame layers.items (map (part_below base.now hierarchies.now) images.now)) }
{
    let mut added = BTreeSet::new(alloc);
    let mut layers = Vec::new(alloc);
    'images: for image in images {
        add_part(alloc, base, hierarchies, image, &mut added, &mut layers)?;
    }
    Ok(layers)
}

// Adds what the image has at the hierarchies as the lowest layer, unless its part is among the layers already.
fn add_part<'a>(
    alloc: Global,
    base: &Tree<Held>,
    hierarchies: &[Name],
    image: &PathRef<'a>,
    added: &mut Added<'a>,
    layers: &mut Vec<Tree<Held>>,
) -> Result<(), OutOfMemory>
    requires { AreAdded base.now hierarchies.now added.old layers.old.items }
    ensures added { OnOk result (AreAdded base.now hierarchies.now added.new layers.new.items) }
    ensures says { OnOk result (SaysToo base.now hierarchies.now image.now layers.old.items layers.new.items) }
{
    if !added.insert(image.again())? {
        return Ok(());
    }
    layers.push(part_below(alloc, base, hierarchies, image)?)?;
    Ok(())
}

// What the base has at the hierarchies of the image below these names, with these names taken off.
fn part_below(
    alloc: Global,
    base: &Tree<Held>,
    hierarchies: &[Name],
    image: &PathRef,
) -> Result<Tree<Held>, OutOfMemory>
    ensures { IfOk result (λ tree. tree ≡ inside hierarchies.now (part image.now base.now)) }
{
    // `pairs` says of the tree that it is one.
    let _entries = base.pairs();
    let copies = copies_inside(alloc, hierarchies, image.depth(), base.below(image))?;
    Ok(Tree::from_pairs(copies))
}
