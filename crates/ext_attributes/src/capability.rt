/// What the attribute `security.capability` of a file says.
#[derive(Clone, Copy, Debug, PartialEq, Eq)]
pub struct Capability {
    /// Whether the permitted ones are effective at once.
    pub effective: bool,
    /// The permitted ones, a bit each.
    pub permitted: u64,
    /// The inheritable ones, a bit each.
    pub inheritable: u64,
    /// The user that is root in the user namespace where they count; 0 where the attribute names none.
    pub root: u32,
}
