//! Rows of operations with what they come to.

/// An operation on a port, or a step of the caller's own.
pub(crate) enum Ask<'a> {
    /// Pops at most so many bytes.
    Pop(u32),
    /// Frees the page that was held back.
    Free,
    /// Pushes an array of these segments.
    Push(&'a [u8], &'a [u8], &'a [u8]),
    Close,
    Stop,
}

/// What it comes to, with the numbers of places.
#[derive(Clone, Copy, Debug, PartialEq, Eq)]
pub(crate) enum Seen<'a> {
    /// It is no operation.
    Nothing,
    Piece(&'a [u8]),
    End,
    NoSlot,
    Pushed,
    Shut,
    Closed,
    Fault(u64),
    Broken(u64),
    Stopped(u64),
    Halted,
}

/// Operations on a fresh port, from place 0.
pub(crate) struct Row<'a> {
    /// Whether the port receives.
    pub(crate) receives: bool,
    /// Whether the one page of the heap is held back at first.
    pub(crate) held: bool,
    /// The number of the one read or write that fails, from 0.
    pub(crate) fails: Option<u64>,
    pub(crate) asks: &'a [(Ask<'a>, Seen<'a>)],
    /// The bytes that were taken from the source, or written to the sink.
    pub(crate) moved: &'a [u8],
}
