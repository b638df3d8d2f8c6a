use demi_port_core::Place;

/// What an operation on a sending port came to: the first of `Stopped`, `Broken` and `Closed` that applies, and else what it
/// did. A stop is `Halted` also where the port is broken or closed.
pub enum TxOut {
    /// All bytes of the array were written.
    Pushed,
    /// A write failed: just so many bytes of this array were written, its first ones, and not all.
    Fault(u64),
    /// A write of the push at this place failed. Nothing was written.
    Broken(Place),
    /// The port is closed now.
    Shut,
    /// The port was closed before. Nothing was written.
    Closed,
    /// A stop came first, at this place. Nothing was written.
    Stopped(Place),
    /// The port is stopped now.
    Halted,
}
