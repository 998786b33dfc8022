use ext_host::Plan;
use ext_text::Names;

/// What merging gives.
#[derive(Drop)]
pub struct Merge {
    /// The host that is wanted; `None` where the host is to stay as it is.
    pub plan: Option<Plan>,
    /// The names of the images that are merged, the lowest first.
    pub names: Names,
}
