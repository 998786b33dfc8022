use ext_cmd::{Answer, Refusal};
use ext_host::{Held, Host};

/// What a command wants, once it has seen the store's host and what the depot has.
#[derive(Drop)]
pub enum Intent {
    /// This host in place of the one that the store has. The answer comes once it is there.
    Changes(Host, Answer),
    /// Nothing changes, and this is its answer.
    Answers(Answer),
    /// Nothing changes. The answer comes once each file of the host was read and has its stamp.
    Checks,
    /// Nothing changes, and the bytes of this file are its reply.
    Shows(Held),
    /// Nothing changes: it is refused.
    Refuses(Refusal),
}
