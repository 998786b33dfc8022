/// What is done with a link below a folder of the system.
#[derive(Clone, Copy, PartialEq, Eq)]
pub(crate) enum Links {
    /// It stands for what it leads to.
    Followed,
    /// It is a file of its text's length, which can be told, listed and removed, and nothing else. Nothing is reached through
    /// it.
    Refused,
}
