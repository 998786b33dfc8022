// Feature files are read, one after the other.
ghost use Rattle.std.specs.Prelude.{◌≡◌, ◌≤◌, ◌-◌, IsTrue, IfOk, length, take};
ghost use Rattle.std.specs.List.{AllByRecursion};
ghost use Rattle.ext_feature.specs.Features.{feature_file};
ghost use Rattle.ext_feature.specs.Reading.{AreServed, IsFeatureName, ReadsFeature, ReadsFeatureText, ReadsFeatures};

use crate::errors::FeaturesErr;
use crate::feature::{Feature, Features};
use ext_configs::ConfigFile;
use ext_host::{Held, Shelf};
use ext_lines::allocated;
use ext_text::{Name, OutOfMemory};
use ext_transfer::{FeatureErr, read_feature};
use std::alloc::Global;

// How many bytes `.feature` has.
const SUFFIX_BYTES: usize = 8;

// The features that files say, in the order of these.
pub(crate) fn read_features<'a, H: Shelf>(
    alloc: Global,
    files: &[ConfigFile<'a, Held>],
    shelf: &mut H,
) -> Result<Features, FeaturesErr>
    requires serves { AreServed (H.serves shelf.old) files.now }
    requires names { AllByRecursion (λ file. IsFeatureName file.name) files.now }
    ensures gives { ReadsFeatures (H.told shelf.old) (H.faults shelf.old) (H.faults shelf.new) files.now result }
    ensures stays { H.stays shelf.old shelf.new }
    ensures count { H.faults shelf.old ≤ H.faults shelf.new }
{
    let mut features = allocated(Vec::with_capacity(alloc, files.len()))?;
    for file in files {
        match feature_of(alloc, file, shelf) {
            Ok(feature) => allocated(features.push(feature))?,
            Err(failed) => return Err(failed),
        }
    }
    Ok(Features::from_vec(features))
}

// The feature that a file says.
fn feature_of<'a, H: Shelf>(
    alloc: Global,
    file: &ConfigFile<'a, Held>,
    shelf: &mut H,
) -> Result<Feature, FeaturesErr>
    requires serves { IsTrue (H.serves shelf.old file.now.content.now) }
    requires name { IsFeatureName file.now.name }
    ensures gives { ReadsFeature (H.told shelf.old) (H.faults shelf.old) (H.faults shelf.new) file.now result }
    ensures stays { H.stays shelf.old shelf.new }
    ensures count { H.faults shelf.old ≤ H.faults shelf.new }
{
    let text = shelf.bytes(alloc, file.content)?;
    feature_in(alloc, &file.name, text.bytes())
}

// The feature that a file of this name and these bytes says.
fn feature_in(alloc: Global, file: &Name, bytes: &[u8]) -> Result<Feature, FeaturesErr>
    requires { IsFeatureName file.now }
    ensures { ReadsFeatureText file.now bytes.now result }
{
    match read_feature(alloc, bytes) {
        Ok(on) => Ok(Feature {
            name: feature_name(alloc, file)?,
            on,
        }),
        Err(FeatureErr::OutOfMemory) => Err(FeaturesErr::OutOfMemory),
        Err(FeatureErr::BadFeature { line, why }) => Err(FeaturesErr::BadFeature {
            file: file.copy()?,
            line,
            why,
        }),
    }
}

// The name of the feature whose file has this name.
fn feature_name(alloc: Global, file: &Name) -> Result<Name, OutOfMemory>
    requires { IsFeatureName file.now }
    ensures { IfOk result (λ name. file.now ≡ feature_file name) }
{
    Name::of_bytes(alloc, without_suffix(file.bytes()))
}

// The text without `.feature` at its end.
fn without_suffix(text: &[u8]) -> &[u8]
    ensures { result.now ≡ take (length text.now - 8) text.now }
{
    &text[..text.len().saturating_sub(SUFFIX_BYTES)]
}
