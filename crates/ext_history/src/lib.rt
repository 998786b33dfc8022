//! Marks of a host: what it was at some generations, to go back to.
//!
//! A host keeps its marks as past trees, the oldest first. [`mark`] adds what the host has now and lets the youngest stay,
//! [`rollback`] gives back what a mark has, [`forget`] drops a mark, and [`history`] lists them. All four are exact, and make
//! valid hosts of valid ones whose files are those of the host. Laws say that a rollback undoes whatever came between it and its
//! mark. Whoever carries out the commands of these names stands on this.
#![tactic(auto)]

mod forgetting;
mod history_err;
pub mod laws;
mod listing;
mod marking;
mod marks;
mod rolling_back;

pub use forgetting::forget;
pub use history_err::HistoryErr;
pub use listing::history;
pub use marking::mark;
pub use marks::Mark;
pub use rolling_back::rollback;

/// A list of marks.
pub type Marks = ext_text::ListOf<Mark>;
