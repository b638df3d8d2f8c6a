use demi_port_core::Place;
use demi_sga::DevSga;

/// What an operation on memory queues came to. Where a stop came before it, it is `Stopped`; else it is the first of those
/// listed that applies.
///
/// - `Queue`: `TooMany`, `Opened`.
/// - `Push`: `BadQueue`, `Closed`, `QueueFull`, `Pushed`.
/// - `Pop`: `BadQueue`, `Item`, `Closed`, `Stopped`.
/// - `Close`: `BadQueue`, `Closed`, `Shut`.
/// - `Stop`: `Halted`.
pub enum MemOut {
    /// The queue of this number was made.
    Opened(u32),
    /// 256 queues were made before.
    TooMany,
    /// The array is in its queue, or went to a pop that waited.
    Pushed,
    /// No queue of this number was made.
    BadQueue,
    /// The queue is closed now.
    Shut,
    /// The queue was closed before; for a pop: and has no push for it.
    Closed,
    /// 1,024 items wait over all queues, and no pop of this queue waits.
    QueueFull,
    /// The array of the push that is counted in its queue as this pop is.
    Item(DevSga),
    /// A stop came first, at this place.
    Stopped(Place),
    /// All queues are stopped now.
    Halted,
}
