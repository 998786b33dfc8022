//! Steps of commands: what each of them wants of a store.
//!
//! A command sees the host that the store has, the bytes of the host's files through a shelf, and the depot. What it wants
//! is an [`Intent`]: another host in place of that one, an answer, the bytes of a file, or a refusal, the first that holds in
//! its order. Nothing here sees a disk, and nothing is carried out: the crate of the runs does that, once for all of them. A
//! command has one file, here and in the definitions.
#![tactic(auto)]

mod attaching;
mod cat;
mod compare;
mod import;
mod init;
mod intent;
pub mod laws;
mod layer;
mod marks;
mod migrate;
mod plan_err;
mod portable;
mod remove;
mod service_items;
mod steps;
mod sysupdate;
mod tree;
mod updates;
mod updating;
mod version_items;
mod view_items;
mod views;

pub use compare::compare_step;
pub use intent::Intent;
pub use layer::layer_step;
pub use plan_err::PlanErr;
pub use steps::{first_step, step};
