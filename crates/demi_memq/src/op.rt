use demi_sga::DevSga;

/// An operation on the memory queues of a port. A port has at most 256 queues, of which at most 1,024 items wait together.
///
/// The array of a push comes out as the `MemOut::Item` of a pop. Where the push is refused, or waits when the port is stopped,
/// the array's device halves end.
pub enum MemOp {
    /// Makes a queue. Its number is how many were made before, and is never used again.
    Queue,
    /// Puts an array at the end of the queue `q`.
    Push { q: u32, sga: DevSga },
    /// Takes the first array of the queue `q`. It waits for one.
    Pop { q: u32 },
    /// Closes the queue `q`: it takes no more pushes. What waits in it can still be taken.
    Close { q: u32 },
    /// Stops all queues: each operation after it is refused.
    Stop,
}
