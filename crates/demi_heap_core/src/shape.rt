use std::collections::LinkedList;

/// A superblock: the number of the memory block in which its first row lies, and how many buffers it has. No value of it
/// is made.
pub struct Superblock {
    pub place: u64,
    pub count: u64,
}

/// What is fixed about a heap: how many slots of each class it has, how many passes, and its superblocks in the order of
/// the slots. No value of it is made.
pub struct Shape {
    pub small: u64,
    pub page: u64,
    pub large: u64,
    pub passes: u64,
    pub blocks: LinkedList<Superblock>,
}
