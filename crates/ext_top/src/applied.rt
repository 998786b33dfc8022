use ext_cmd::Refusal;
use ext_gen::Opened;
use ext_host::Held;
use ext_text::Text;

/// What a command that was carried out, or refused, leaves.
#[derive(Drop)]
pub struct Applied {
    /// The generation that the store has; none where there is no store.
    pub opened: Option<Opened>,
    /// What is to be written.
    pub reply: Reply,
}

/// The reply of a command.
#[derive(Drop)]
pub enum Reply {
    /// This text.
    Text(Text),
    /// The bytes of this file, which the store has with its stamp.
    File(Held),
    /// The line of this refusal.
    Refused(Refusal),
}
