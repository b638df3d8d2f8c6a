ghost use Rattle.std.specs.Prelude.{◌≡◌};
ghost use Rattle.demi_buf.specs.Bufs.{size_of};

/// The size of a small buffer, in bytes.
pub const SMALL_BYTES: u32 = 256;

/// The size of a page, in bytes.
pub const PAGE_BYTES: u32 = 4096;

/// The size of a large buffer, in bytes. No buffer is larger.
pub const LARGE_BYTES: u32 = 65536;

/// The three sizes of a buffer.
#[derive(Clone, Copy, PartialEq, Eq, Debug)]
pub enum Class {
    Small,
    Page,
    Large,
}

impl Class {
    /// In bytes.
    pub fn size(self) -> u32
        ensures { result ≡ size_of self }
    {
        match self {
            Class::Small => SMALL_BYTES,
            Class::Page => PAGE_BYTES,
            Class::Large => LARGE_BYTES,
        }
    }
}
