//! Publishing: a directory or a file of a store becomes a resource of a depot, in a folder that a web server may serve.
//!
//! [`publish`] opens the store, looks whether what is asked may be published, writes it beside what is there, and lists it in the
//! manifest by one rename. A stop at any moment leaves the old manifest, or the new one with all that it lists. What a published
//! resource is stands in the crate below; the program is a thin shell over this one.
#![tactic(auto)]

mod attempt;
mod carrying;
mod copying;
mod counting;
mod filling;
mod folders;
mod kinds;
pub mod laws;
mod look_err;
mod looking;
mod manifests;
mod publishing;
mod status;
mod stop;
mod switching;

pub use ext_gen::BadStore;
pub use publishing::publish;
pub use status::PubStatus;
