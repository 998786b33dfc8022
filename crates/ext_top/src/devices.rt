/// The devices of a run.
#[derive(Drop)]
pub struct Devices<S, K, D, P, O> {
    /// What `layer` and `batch` read.
    pub source: S,
    /// What replies are written to.
    pub sink: K,
    /// The disk on which the store stands.
    pub disk: D,
    /// The files that a host is made of.
    pub depot: P,
    /// Who is told of refusals.
    pub observer: O,
}
