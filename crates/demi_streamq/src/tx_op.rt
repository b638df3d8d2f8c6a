use demi_sga::DevSga;

/// An operation on a sending port. The device halves of a push end before it has its outcome, whatever that is.
pub enum TxOp {
    /// Writes the segments of an array in order. An empty segment is not written.
    Push { sga: DevSga },
    /// Closes the port: it takes no more pushes.
    Close,
    /// Stops the port: each operation after it is refused.
    Stop,
}
