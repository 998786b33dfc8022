// The lines of past trees, apart from their parts, and the last line.
ghost use Rattle.std.specs.Prelude.{◌≡◌, ◌≢◌, ◌<◌, ◌↔◌, ℕ, codes, IsTrue, MatchOption};
ghost use Rattle.ext_index_lines.specs.Lines.{number_line};
ghost use Rattle.ext_index_reader.specs.Reading.{LeadsTo};
ghost use Rattle.ext_index_reader.specs.State.{at};
ghost use Rattle.ext_index_reader.specs.Step.{MayBePast};
ghost use Rattle.ext_index_reader.specs.declared.state.SoFar.{SoFar};
ghost use Rattle.ext_index_reader.specs.declared.state.Stage.TheVariants as stages;

use crate::following::follows_as_generation;
use crate::next::then_past;
use crate::state::{PartStage, SoFar, Stage, Whose};
use ext_host::LAST_GENERATION;
use ext_index_lines::{MOST_COUNT, number_after};

/// The last line of an index.
const END: &[u8] = b"end";

/// The most past trees of a host.
const MOST_PAST: usize = 16;

/// After the line that tells how many past trees there are.
pub(crate) fn past_line(line: &[u8]) -> Option<Stage>
    ensures { (g : ℕ) (s : SoFar) → LeadsTo g (at s stages.Past) s line.now result }
{
    match number_after(line, b"past", MOST_COUNT) {
        None => None,
        Some(count) => Some(then_past(count)),
    }
}

/// After the line of the generation of a past tree.
pub(crate) fn generation_line(
    generation: u32,
    so_far: &mut SoFar,
    more: u64,
    line: &[u8],
) -> Option<Stage>
    ensures { LeadsTo generation (at so_far.old (stages.Generation more)) so_far.new line.now result }
{
    match generation_before(generation, line) {
        None => None,
        Some(past) => {
            if !may_be_past(so_far, past) {
                return None;
            }
            so_far.whose = Whose::Past {
                generation: past,
                more,
            };
            Some(Stage::Part(PartStage::Sysext))
        }
    }
}

// The generation of a line, which is before this one.
fn generation_before(generation: u32, line: &[u8]) -> Option<u32>
    ensures { MatchOption result
        ((n : ℕ) → 0 < n → n < generation → line.now ≢ number_line (codes "g") n)
        (λ n. (0 < n) × (n < generation) × (line.now ≡ number_line (codes "g") n)) }
{
    match number_after(line, b"g", LAST_GENERATION) {
        None => None,
        Some(past) => {
            if !is_between(past, generation) {
                return None;
            }
            Some(past as u32)
        }
    }
}

// Whether it is a generation before this one.
fn is_between(past: u64, generation: u32) -> bool
    ensures { IsTrue result ↔ ((0 < past) × (past < generation)) }
{
    past > 0 && past < u64::from(generation)
}

// Whether one more past tree, of this generation, may follow.
fn may_be_past(so_far: &SoFar, generation: u32) -> bool
    ensures { IsTrue result ↔ MayBePast so_far.now generation }
{
    so_far.past.len() < MOST_PAST && follows_as_generation(so_far.past.as_slice(), generation)
}

/// After the last line.
pub(crate) fn end_line(line: &[u8]) -> Option<Stage>
    ensures { (g : ℕ) (s : SoFar) → LeadsTo g (at s stages.End) s line.now result }
{
    if line != END {
        return None;
    }
    Some(Stage::Done)
}
