/// What a record has besides its key and its value: whose put it is, and how many bytes these two have.
#[derive(Clone, Copy)]
pub struct Head {
    pub index: u32,
    pub value_bytes: u32,
    pub link: u16,
    pub key_bytes: u8,
}
