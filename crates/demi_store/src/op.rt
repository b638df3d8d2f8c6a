use demi_frame::Key;
use demi_heap::AppBuf;
use demi_sga::DevSga;

/// An operation on the store.
pub enum StoreOp {
    /// Puts a value of at most 65,536 bytes under a key, as request `index` of a link, both from 0. A value of no bytes is `None`.
    Put {
        link: u16,
        index: u32,
        key: Key,
        value: Option<DevSga>,
    },
    /// Asks for the value of a key. It comes in the room, which is of class Large.
    Get {
        key: Key,
        room: AppBuf,
    },
    /// Stops the store: each operation after it is refused.
    Stop,
}
