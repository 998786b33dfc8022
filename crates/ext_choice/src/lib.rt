//! Which version an update takes over, and which versions go so that there is room.
//!
//! [`choose`] decides for the newest available version or for the one that is wanted. [`divide`] tells the instances that go, so
//! that no target has more versions than its transfer allows, from those that stay, or gives the first transfer whose protected
//! versions leave no room; and [`vacuum_list`] gives the paths that go alone.
//! Both are exact, and laws say in the manual's words what they promise. Whoever updates a host stands on this.
#![tactic(auto)]

mod choosing;
mod division;
pub mod laws;
mod protecting;
mod room_err;
mod rooming;
mod vacuuming;

pub use choosing::{Choice, choose};
pub use division::{Division, divide};
pub use room_err::RoomErr;
pub use rooming::room;
pub use vacuuming::vacuum_list;
