use demi_heap::AppBuf;
use demi_port_core::Place;

/// What an operation on a receiving port came to. Where a stop came before it, it is `Stopped`. A stop is else `Halted`, and a
/// pop is else the first of `End` and `Broken` that holds already, or what its one read gave.
pub enum RxOut {
    /// The next bytes of the source, at least one and at most as many as the pop asked.
    Piece(AppBuf),
    /// The source has no more bytes: a read of this pop, or of one before it, gave none.
    End,
    /// The read failed. The pieces before it have so many bytes together.
    Fault(u64),
    /// The read of the pop at this place failed.
    Broken(Place),
    /// Each page of the heap had an owner when the pop came to it. The source was not read.
    NoSlot,
    /// A stop came first, at this place.
    Stopped(Place),
    /// The port is stopped now.
    Halted,
}
