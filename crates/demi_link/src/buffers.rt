//! Buffers with bytes, and the arrays of replies.
ghost use Rattle.std.specs.Prelude.{◌≡◌, ◌≤◌, [], ◌∷◌, length};
ghost use Rattle.demi_buf.specs.Bufs.{size_of};
ghost use Rattle.demi_heap.specs.Seen.{HalfValue, half_with};
ghost use Rattle.demi_link.specs.Fitting.{body_of};

use demi_frame::Key;
use demi_heap::AppBuf;
use demi_sga::AppSga;

// The buffer with just these bytes.
pub(crate) fn written(mut buf: AppBuf, bytes: &[u8]) -> AppBuf
    requires { length bytes.now ≤ size_of buf.class }
    ensures { result ≡ half_with buf bytes.now }
{
    buf.set_len(bytes.len() as u32);
    buf.bytes_mut().copy_from_slice(bytes);
    buf
}

// The head and what follows it.
pub(crate) fn joined(head: AppBuf, body: Option<AppSga>) -> AppSga
    requires { length (body_of body) ≤ 1 }
    ensures { result ≡ head ∷ body_of body }
{
    match body {
        None => AppSga::of(head),
        Some(sga) => match AppSga::join(AppSga::of(head), sga) {
            Ok(all) => all,
            Err((_head, _sga)) => unreachable!(),
        },
    }
}

// A copy of the key.
pub(crate) fn key_copy(bytes: &[u8]) -> Key
    requires { length bytes.now ≤ 255 }
    ensures { result.items ≡ bytes.now }
{
    let mut key = Key::new();
    let _ = key.try_extend_from_slice(bytes);
    key
}

// An array of one segment with these bytes written over its own, of which there are as many.
pub(crate) fn filled(mut sga: AppSga, bytes: &[u8]) -> AppSga
    requires { (a : HalfValue) × (sga ≡ a ∷ []) × (length a.bytes ≡ length bytes.now) }
    ensures { (a : HalfValue) → sga ≡ a ∷ [] → result ≡ half_with a bytes.now ∷ [] }
{
    sga.segment_mut(0).copy_from_slice(bytes);
    sga
}
