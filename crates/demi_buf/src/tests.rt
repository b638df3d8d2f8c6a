use crate::{Block, Buf, Class};
use demi_core::NoMemory;
use std::test::Fail;

// It compiles only for what one thread can hand to another.
fn is_sent<T: Send>(value: &T) -> bool {
    let _ = value;
    true
}

fn lose_all(mut bufs: Vec<Buf>) {
    while let Some(buf) = bufs.pop() {
        buf.lose();
    }
    bufs.destroy_empty();
}

#[test]
fn a_buffer_keeps_its_bytes_up_to_its_length(rt: HostRuntime) -> Result<(), Fail> {
    let mut bufs = match Block::carve(rt.alloc(), Class::Page, 3) {
        Ok(bufs) => bufs,
        Err(NoMemory) => panic!(rt; "no memory"),
    };
    let mut last = bufs.take_last();
    last.set_len(2);
    last.bytes_mut()[1] = 7;
    last.set_len(1);
    last.set_len(3);
    assert_eq!(rt; last.bytes(), [0, 0, 0].as_slice());
    last.bytes_mut()[1] = 7;
    last.set_len(4);
    assert_eq!(rt; last.bytes(), [0, 7, 0, 0].as_slice());
    assert_eq!(rt;
        (last.slot(), last.len(), last.class()),
        (2, 4, Class::Page)
    );
    assert!(rt; is_sent(&last));
    last.lose();
    lose_all(bufs);
    Ok(())
}

#[test]
fn buffers_join_in_any_order(rt: HostRuntime) -> Result<(), Fail> {
    let mut bufs = match Block::carve(rt.alloc(), Class::Large, 3) {
        Ok(bufs) => bufs,
        Err(NoMemory) => panic!(rt; "no memory"),
    };
    let mut last = bufs.take_last();
    let middle = bufs.take_last();
    let first = bufs.take_last();
    last.set_len(5);
    bufs.push_reserved(middle);
    bufs.push_reserved(last);
    bufs.push_reserved(first);
    Block::join(bufs);
    Ok(())
}
