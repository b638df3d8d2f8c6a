use std::collections::LinkedList;

/// What an outcome of a receiving port tells of its source and its heap. No value of it is made.
pub enum RxTold {
    /// The bytes of a piece.
    Bytes(LinkedList<u8>),
    /// Nothing is left.
    AtEnd,
    /// A read failed, after so many bytes.
    Failed(u64),
    /// No page was free.
    Refused,
}
