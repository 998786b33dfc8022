// Why an extension of a portable service is refused.
ghost use Rattle.std.specs.Prelude.{◌≡◌, ◌++◌, codes, OnOk};
ghost use Rattle.ext_cmd.specs.Portable.{image_word};
ghost use Rattle.ext_cmd.specs.Refusals.{ext_why_words};

use crate::appending::{append_numbered, append_words};
use crate::images::append_image;
use crate::replies::{verdict_word, why_word};
use ext_portext::ExtWhy;
use ext_text::OutOfMemory;
use ext_units::Image;

// Which extension is not there.
pub(crate) fn append_no_extension(line: &mut Vec<u8>, extension: &Image) -> Result<(), OutOfMemory>
    ensures { OnOk result (line.new.items ≡ line.old.items ++ (codes "no-extension " ++ image_word extension.now)) }
{
    append_words(line, "no-extension ")?;
    append_image(line, extension)
}

// Which extension does not fit, and why.
pub(crate) fn append_unfit(
    line: &mut Vec<u8>,
    extension: &Image,
    why: ExtWhy,
) -> Result<(), OutOfMemory>
    ensures { OnOk result
        (line.new.items ≡ line.old.items ++ (codes "extension " ++ image_word extension.now ++ codes " " ++ ext_why_words why)) }
{
    append_words(line, "extension ")?;
    append_image(line, extension)?;
    line.push(b' ')?;
    append_why(line, why)
}

// Why an extension does not fit.
fn append_why(line: &mut Vec<u8>, why: ExtWhy) -> Result<(), OutOfMemory>
    ensures { OnOk result (line.new.items ≡ line.old.items ++ ext_why_words why) }
{
    match why {
        ExtWhy::Broken(why) => append_words(line, why_word(why)),
        ExtWhy::BadRelease { line: at } => append_numbered(line, "bad-release ", at),
        ExtWhy::Verdict(verdict) => append_words(line, verdict_word(verdict)),
    }
}
