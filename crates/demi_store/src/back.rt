use demi_heap::AppBuf;
use demi_sga::DevSga;

/// What comes back with an answer: the value or the room that was given, whatever the answer is.
pub enum Back {
    /// Neither was given.
    Nothing,
    /// The value of a put, as it was.
    Value(DevSga),
    /// The room of a get. It has the bytes of the value that was found, and none where none was.
    Room(AppBuf),
}
