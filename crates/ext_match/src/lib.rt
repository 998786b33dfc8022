//! Verdicts: whether an extension fits a host, by what their release files assign.
//!
//! [`judge`] decides, takes no memory and answers the verdict that its definition gives. There is one. It is for whatever
//! lists extensions or merges them.
#![tactic(auto)]

mod keys;
mod laws;
mod verdict;

pub use laws::one_verdict;
pub use verdict::{Verdict, judge};
