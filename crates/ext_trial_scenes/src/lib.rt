//! Scenes over devices in memory: a disk, a depot, a source and a sink that fail and stop where a case says so, and a disk to publish in.
//!
//! A [`Scene`] is what the statements of a case have made so far. [`answer`] carries out one statement over it. Commands run
//! through [`ext_top::run`], runs that publish through [`ext_publish::publish`], and what neither shows is looked at by the calls of
//! the devices. The `every` forms play the scene again on fresh devices, once for each call of its last run, and say where it leaves
//! neither what stood before nor what stands after. A call gives `Unreadable` where a statement can't mean that there, and `OutOfMemory`.
#![tactic(auto)]

mod acts;
mod ends;
mod every;
mod publishing;
mod resources;
mod scene;
mod streams;
mod words;

pub use ext_trial_disks::Outcome;
pub use scene::Scene;
pub use streams::{MemoryStreams, Streams, beside_streams, run_over};
pub use words::{answer, words_of};
