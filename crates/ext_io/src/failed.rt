use thiserror::Error;

/// A device did not do what it was asked to. Why is not told.
#[derive(Clone, Copy, Debug, PartialEq, Eq, Error)]
#[error("the device failed")]
pub struct Failed;
