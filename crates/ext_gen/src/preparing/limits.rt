// The number of the coming generation, and what stands in the way of a change before anything is done.
ghost use Rattle.std.specs.Prelude.{◌≡◌, ◌<◌, ◌≤◌, min, length, Some, None, IfErr, IfOk};
ghost use Rattle.std.specs.Option.{option_copied};
ghost use Rattle.ext_host.specs.Home.{last_generation};
ghost use Rattle.ext_index.specs.ValidIndex.{most_index_bytes};
ghost use Rattle.ext_store_files.specs.Names.{IsGeneration};
ghost use Rattle.ext_gen.specs.Preparing.{coming_number, limit_of};
ghost use Rattle.ext_gen.specs.PreparingIndex.{coming_index};
ghost use Rattle.ext_gen.specs.declared.errors.StoreErr.TheVariants as errors;

use crate::errors::StoreErr;
use crate::opened::Opened;
use crate::preparing::index::coming_size;
use ext_host::{Host, LAST_GENERATION};
use ext_index::MOST_INDEX_BYTES;
use ext_text::Which;

/// The number of the coming generation, where the change passes no limit.
///
/// # Errors
/// `Limit` alone. It is `Index` exactly where the coming index would be too long, each file that is brought counted with a
/// home in the coming generation. Else it is `Generations` exactly where the generation before has the last number.
pub(crate) fn coming_generation(from: Option<&Opened>, next: &Host) -> Result<u32, StoreErr>
    ensures number { IfOk result (λ n. (n ≡ coming_number (option_copied from.entry)) × IsGeneration n
        × (limit_of (option_copied from.entry) next.now ≡ None)
        × (length (coming_index n next.now) ≤ most_index_bytes)) }
    ensures limit { IfErr result (λ e. (which : Which) × (e ≡ errors.Limit which)
        × (limit_of (option_copied from.entry) next.now ≡ Some which)) }
{
    let number = number_after(from);
    let shown = at_most_last(number);
    if coming_size(next, shown) > MOST_INDEX_BYTES as u64 {
        return Err(StoreErr::Limit {
            which: Which::Index,
        });
    }
    if number > LAST_GENERATION {
        return Err(StoreErr::Limit {
            which: Which::Generations,
        });
    }
    Ok(shown)
}

// The number, or the last one where it is past that: both have as many digits, so that the index is as long.
fn at_most_last(number: u64) -> u32
    ensures { result ≡ min number last_generation }
{
    if number > LAST_GENERATION {
        LAST_GENERATION as u32
    } else {
        number as u32
    }
}

// The number after that of the generation before.
fn number_after(from: Option<&Opened>) -> u64
    ensures number { result ≡ coming_number (option_copied from.entry) }
    ensures positive { 0 < result }
    ensures within { result ≤ 4294967296 }
{
    match from {
        None => 1,
        Some(opened) => u64::from(opened.generation()) + 1,
    }
}
