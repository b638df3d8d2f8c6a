use arrayvec::ArrayVec;

/// A key, of at most 255 bytes. That of a request has at least one.
pub type Key = ArrayVec<u8, 255>;
