// The index of the coming generation.
ghost use Rattle.std.specs.Prelude.{◌≡◌, length, IfOk};
ghost use Rattle.ext_index_lines.specs.Out.{at_most_64_bits};
ghost use Rattle.ext_gen.specs.PreparingIndex.{coming_index};

use ext_host::Host;
use ext_index::{index_size, write_index};
use ext_text::{OutOfMemory, Text};
use std::alloc::Global;

/// The index of a host in a generation, as it is written.
///
/// # Errors
/// Out of memory alone.
pub(crate) fn coming_index(alloc: Global, host: &Host, generation: u32) -> Result<Text, OutOfMemory>
    ensures { IfOk result (λ text. text ≡ coming_index generation host.now) }
{
    write_index(alloc, host, generation)
}

/// How long it is, up to the last number of 64 bits, each file that is not kept counted with a home in this generation.
pub(crate) fn coming_size(host: &Host, generation: u32) -> u64
    ensures { result ≡ at_most_64_bits (length (coming_index generation host.now)) }
{
    index_size(host, generation)
}
