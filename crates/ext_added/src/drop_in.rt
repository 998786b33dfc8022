// The drop-in that tells a service its image.
ghost use Rattle.std.specs.Prelude.{◌≡◌, ◌++◌, IfOk, OnOk};
ghost use Rattle.ext_text.specs.Absolute.{absolute};
ghost use Rattle.ext_added.specs.DropIn.{IsOwn, doubled, own_text};

use ext_host::{Held, HereText};
use ext_text::{OutOfMemory, Path, Text};
use ext_units::last_name;
use std::alloc::Global;

// The file of the drop-in of an image at the place that is shown at a path.
pub(crate) fn own_file(
    alloc: Global,
    place: &Path,
    shown: &Path,
    lines: &[u8],
) -> Result<Held, OutOfMemory>
    ensures { IfOk result (IsOwn (own_text place.now shown.now lines.now)) }
{
    let text = own_text(alloc, place, shown, lines)?;
    let here = HereText::new(alloc, text)?;
    Ok(Held::here(here))
}

// Its text.
fn own_text(alloc: Global, place: &Path, shown: &Path, lines: &[u8]) -> Result<Text, OutOfMemory>
    ensures { IfOk result (λ text. text ≡ own_text place.now shown.now lines.now) }
{
    let mut text = Vec::new(alloc);
    text.extend_from_slice(b"# hostext portable ")?;
    text.extend_from_slice(last_name(place))?;
    text.extend_from_slice(b"\n[Service]\nRootDirectory=")?;
    append_shown(&mut text, shown)?;
    text.push(b'\n')?;
    text.extend_from_slice(lines)?;
    Ok(Text::from_vec(text))
}

// Appends the path as it is written for a reader, each `%` twice.
fn append_shown(text: &mut Vec<u8>, path: &Path) -> Result<(), OutOfMemory>
    ensures { OnOk result (text.new.items ≡ text.old.items ++ doubled (absolute path.now)) }
{
    text.push(b'/')?;
    append_doubled(text, path.text())
}

// Appends bytes, each `%` twice.
fn append_doubled(text: &mut Vec<u8>, bytes: &[u8]) -> Result<(), OutOfMemory>
    ensures { OnOk result (text.new.items ≡ text.old.items ++ doubled bytes.now) }
{
    'bytes: for byte in bytes {
        if *byte == b'%' {
            text.push(b'%')?;
        }
        text.push(*byte)?;
    }
    Ok(())
}
