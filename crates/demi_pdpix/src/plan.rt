use demi_heap::Counts;

/// What a `Demi` is made of.
#[derive(Clone, Copy, Debug, PartialEq, Eq)]
pub struct DemiPlan {
    /// How many callers, 1 to 16.
    pub callers: u32,
    /// How many tokens each port has, 1 to 64.
    pub tokens: u32,
    /// How many links, at most 16.
    pub links: u32,
    /// Whether there is a port for the queue of a log.
    pub log: bool,
    /// How many slots of each class the heap has.
    pub counts: Counts,
}
