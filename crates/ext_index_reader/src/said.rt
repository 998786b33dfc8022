use ext_host::Host;
use ext_index_lines::TextNumber;

/// What the lines of an index say.
#[derive(Drop)]
pub struct Said {
    /// The host.
    pub host: Host,
    /// Which text they are.
    pub text: TextNumber,
}
