// The items that `list` writes.
ghost use Rattle.std.specs.Prelude.{◌≡◌, IfOk, map};
ghost use Rattle.ext_intents.specs.Views.{listed_item, listed_kind};

use ext_cmd::{Item, ItemKind, Items};
use ext_text::OutOfMemory;
use ext_view::{Survey, SurveyItem, SurveyKind};
use std::alloc::Global;

/// The item of each item of a survey.
///
/// # Errors
/// Out of memory alone.
pub(crate) fn listed_items(alloc: Global, survey: Survey) -> Result<Items, OutOfMemory>
    ensures { IfOk result (λ items. items ≡ map listed_item survey) }
{
    let mut items = Vec::with_capacity(alloc, survey.len())?;
    for item in survey.into_vec() {
        items.push(listed_item(item))?;
    }
    Ok(Items::from_vec(items))
}

// The item of one that was surveyed.
fn listed_item(item: SurveyItem) -> Item
    ensures { result ≡ listed_item item }
{
    let SurveyItem { name, place, kind } = item;
    let kind = listed_kind(kind);
    Item { name, place, kind }
}

// What the item is.
fn listed_kind(kind: SurveyKind) -> ItemKind
    ensures { result ≡ listed_kind kind }
{
    match kind {
        SurveyKind::Masked => ItemKind::Masked,
        SurveyKind::Raw => ItemKind::Raw,
        SurveyKind::Broken(why) => ItemKind::Broken(why),
        SurveyKind::BadRelease { line } => ItemKind::BadRelease { line },
        SurveyKind::Image(verdict) => ItemKind::Image(verdict),
    }
}
