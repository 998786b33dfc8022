//! The top call: one run of the program, from the words and the bytes that come in to the bytes that go out.
//!
//! [`run`] carries the theorem of the repository: whatever comes in, the status, the bytes written and what the store stands
//! for are those that the machine says, at the end and after a stop at any moment. What a command wants is said below. Here
//! it is carried out, once for all commands, and how a run ends is said once, over any of them. The program is a thin shell
//! over this crate.
#![tactic(auto)]

mod alone;
mod applied;
mod apply_err;
mod applying;
mod batch;
mod changing;
mod devices;
pub mod laws;
mod lines;
mod observer;
mod over_store;
mod replacing;
mod replying;
mod running;
mod sample;
mod status;
mod stop;

pub use applied::{Applied, Reply};
pub use apply_err::ApplyErr;
pub use applying::apply;
pub use changing::may_change;
pub use devices::Devices;
pub use ext_gen::BadStore;
pub use observer::{MemoryObserver, Observer};
pub use running::run;
pub use status::Status;
