// The words of numbers. Each reader is told the place of the word that it reads.
ghost use Rattle.std.specs.Prelude.{◌<◌, ◌^◌, decimal};
ghost use Rattle.ext_cmd.specs.Reading.{ReadsWord};
ghost use Rattle.ext_cmd.specs.Words.{IsCountTo, IsImages, IsKeep, IsMarkNumber};

use crate::command::MOST_MARKS;
use crate::words::CmdErr;
use ext_lines::read_decimal;

// The most images that a sample has.
const MOST_IMAGES: u64 = 500;

// The highest number of a generation.
const MOST_GENERATION: u64 = 4_294_967_295;

// How many images a sample has.
pub(crate) fn read_images(word: &[u8], place: u64) -> Result<u32, CmdErr>
    ensures { ReadsWord decimal IsImages word.now place result }
{
    read_count(word, MOST_IMAGES, place)
}

// How many marks stay.
pub(crate) fn read_keep(word: &[u8], place: u64) -> Result<u32, CmdErr>
    ensures { ReadsWord decimal IsKeep word.now place result }
{
    read_count(word, u64::from(MOST_MARKS), place)
}

// The number of a mark's generation.
pub(crate) fn read_mark_number(word: &[u8], place: u64) -> Result<u32, CmdErr>
    ensures { ReadsWord decimal IsMarkNumber word.now place result }
{
    read_count(word, MOST_GENERATION, place)
}

// A number of at least 1, and so many at the most.
fn read_count(word: &[u8], most: u64, place: u64) -> Result<u32, CmdErr>
    requires { most < 2 ^ 32 }
    ensures { ReadsWord decimal (IsCountTo most) word.now place result }
{
    match read_decimal(word, most) {
        None => Err(CmdErr::Usage { place }),
        Some(0) => Err(CmdErr::Usage { place }),
        Some(count) => Ok(count as u32),
    }
}
