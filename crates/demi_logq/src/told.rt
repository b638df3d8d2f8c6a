/// What an outcome tells of the outside. No value of it is made.
pub enum LogTold {
    /// The disk failed.
    ByDisk,
    /// No slot was found for an item.
    BySlot,
}
