/// What a session is made by.
#[derive(Clone, Copy, Debug, PartialEq, Eq)]
pub struct Plan {
    /// How many workers, 1 to 4.
    pub workers: u32,
    /// How many records the log may have, 1 to 1,000,000.
    pub limit: u32,
}
