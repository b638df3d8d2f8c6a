use demi_sga::DevSga;

/// An operation on the queue of a log: its entries, and a cursor that stands at the next one to be read.
///
/// The device halves of a push end before it is answered, whatever the answer is.
pub enum LogOp {
    /// Appends the bytes of an array as an entry.
    Push { sga: DevSga },
    /// Reads the entry at the cursor, and moves the cursor to the next one.
    Pop,
    /// Moves the cursor to the entry of this number, from 0, or behind the last one.
    Seek { index: u64 },
    /// Keeps the first entries alone. A cursor behind them is moved to their end.
    Truncate { keep: u64 },
    /// Stops the queue: each operation after it is refused.
    Stop,
}
