//! What a turn of a device came to.

/// What a turn of a device came to.
#[derive(Clone, Copy, Debug, PartialEq, Eq)]
pub enum Turn {
    /// So many operations were served, at least one.
    Served(u32),
    /// Nothing was served: no doorbell was set, and the operation with the next place was not there.
    Idle,
    /// The same, and besides a stop was served and the device holds no operation.
    Ended,
}
