//! Portable services attached: the host with an image attached, or attached anew, as a plan.
//!
//! [`attach_image`] reads an image and plans the host with it attached. [`attach_body`] plans with an image that was read, with the
//! tree in which units are looked for, and with further lines for the drop-ins of services, given from outside. Both are exact: what is added has one definition, and so have the refusals, the first in their order. The host of a plan is valid and
//! drawn from the host. Laws say that detaching undoes attaching, and that to attach anew is to detach and to attach.
#![tactic(auto)]

mod attaching;
mod errors;
pub mod laws;
mod limits;
mod next_host;
mod planning;
mod staging;
mod starting;

pub use attaching::{Attach, attach_body};
pub use errors::PortErr;
pub use planning::attach_image;
