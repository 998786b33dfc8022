// The texts of answers to `portable`.
ghost use Rattle.std.specs.Prelude.{◌≡◌, ◌++◌, IfOk, OnOk};
ghost use Rattle.std.specs.List.{flat_map};
ghost use Rattle.ext_cmd.specs.declared.answer.ServiceKind.TheVariants.{Image};
ghost use Rattle.ext_cmd.specs.Replies.{inspect_text, lined, service_line, service_words, state_word, unit_line, value_word};

use crate::answer::{ServiceItem, ServiceKind};
use crate::appending::{append_line, append_placed, append_words};
use ext_attached::State;
use ext_text::{Name, OutOfMemory, Path, Text};
use ext_units::Inspect;
use std::alloc::Global;

// A line for each item.
pub(crate) fn services_text(alloc: Global, items: &[ServiceItem]) -> Result<Text, OutOfMemory>
    ensures { IfOk result (λ text. text ≡ flat_map service_line items.now) }
{
    let mut text = Vec::new(alloc);
    'items: for item in items {
        append_service(&mut text, item)?;
    }
    Ok(Text::from_vec(text))
}

// The line of an item.
fn append_service(text: &mut Vec<u8>, item: &ServiceItem) -> Result<(), OutOfMemory>
    ensures { OnOk result (text.new.items ≡ text.old.items ++ service_line item.now) }
{
    text.extend_from_slice(item.name.bytes())?;
    text.push(b' ')?;
    append_kind(text, &item.place, item.kind)?;
    text.push(b'\n')?;
    Ok(())
}

// What an item is, and where.
fn append_kind(text: &mut Vec<u8>, place: &Path, kind: ServiceKind) -> Result<(), OutOfMemory>
    ensures { OnOk result (text.new.items ≡ text.old.items ++ service_words place.now kind) }
{
    match kind {
        ServiceKind::Image(state) => append_image(text, place, state),
        ServiceKind::Masked => append_placed(text, "masked ", place),
        ServiceKind::Raw => append_placed(text, "raw ", place),
    }
}

// An image, and its state.
fn append_image(text: &mut Vec<u8>, place: &Path, state: State) -> Result<(), OutOfMemory>
    ensures { OnOk result (text.new.items ≡ text.old.items ++ service_words place.now (Image state)) }
{
    append_placed(text, "image ", place)?;
    text.push(b' ')?;
    append_words(text, state_word(state))
}

// The word of the state of a portable service.
pub(crate) fn state_word(state: State) -> &'static str
    ensures { result.now ≡ state_word state }
{
    match state {
        State::Detached => "detached",
        State::Attached => "attached",
        State::AttachedRuntime => "attached-runtime",
    }
}

// What inspecting a portable service tells.
pub(crate) fn inspect_text(alloc: Global, inspect: &Inspect) -> Result<Text, OutOfMemory>
    ensures { IfOk result (λ text. text ≡ inspect_text inspect.now) }
{
    let mut text = Vec::new(alloc);
    append_placed(&mut text, "image ", &inspect.place)?;
    text.push(b'\n')?;
    append_value(&mut text, "id ", &inspect.id)?;
    append_value(&mut text, "version ", &inspect.version)?;
    append_units(&mut text, inspect.units.as_slice())?;
    Ok(Text::from_vec(text))
}

// Words and a value of a release file, or `-` where it is unset, as a line.
fn append_value(text: &mut Vec<u8>, words: &str, value: &Option<Text>) -> Result<(), OutOfMemory>
    ensures { OnOk result (text.new.items ≡ text.old.items ++ lined (words.now ++ value_word value.now)) }
{
    append_words(text, words)?;
    text.extend_from_slice(value_word(value))?;
    text.push(b'\n')?;
    Ok(())
}

// A value of a release file, or `-` where it is unset.
fn value_word(value: &Option<Text>) -> &[u8]
    ensures { result.now ≡ value_word value.now }
{
    match value {
        None => b"-",
        Some(value) => value.bytes(),
    }
}

// A line for each unit.
fn append_units(text: &mut Vec<u8>, units: &[Name]) -> Result<(), OutOfMemory>
    ensures { OnOk result (text.new.items ≡ text.old.items ++ flat_map unit_line units.now) }
{
    'units: for unit in units {
        append_unit(text, unit)?;
    }
    Ok(())
}

// The line of a unit.
fn append_unit(text: &mut Vec<u8>, unit: &Name) -> Result<(), OutOfMemory>
    ensures { OnOk result (text.new.items ≡ text.old.items ++ unit_line unit.now) }
{
    append_words(text, "unit ")?;
    append_line(text, unit.bytes())
}
