/// What an outcome tells of the outside. No value of it is made.
pub enum StoreTold {
    /// The disk failed.
    ByDisk,
    /// Memory was refused.
    ByMemory,
}
