use crate::{Key, ReplyRefusal, Request, STORED, read_reply, write_request};
use std::test::Fail;

#[test]
fn replies_are_read_back(rt: HostRuntime) -> Result<(), Fail> {
    assert_eq!(rt; read_reply(b"\x81\x00"), Err(ReplyRefusal::Short));
    assert_eq!(rt; read_reply(b"\x80\x00"), Err(ReplyRefusal::BadReply));
    let Ok((reply, used)) = read_reply(
        b"\x81\x02\x00\x00\x00\x00\x00\x00\x00\x03\x00\x00\x00\x00\x00\x00\x01\x04\x00\x00\x00\x011\x81",
    ) else {
        panic!(rt; "a reply stands there");
    };
    assert_eq!(rt; reply.kind, STORED);
    assert_eq!(rt; reply.worker, 2);
    assert_eq!(rt; reply.sequence, 3);
    assert_eq!(rt; reply.version, 260);
    assert_eq!(rt; used, 23);
    Ok(())
}

#[test]
fn requests_are_written(rt: HostRuntime) -> Result<(), Fail> {
    let mut key = Key::new();
    key.push(b'a');
    let mut value = Vec::new(rt.alloc());
    value.push(b'1')?;
    let mut out = Vec::new(rt.alloc());
    let Ok(()) = write_request(rt.alloc(), &mut out, &Request::Put { key, value }) else {
        panic!(rt; "memory is there");
    };
    let Ok(()) = write_request(rt.alloc(), &mut out, &Request::End) else {
        panic!(rt; "memory is there");
    };
    assert_eq!(rt;
        out.as_slice(),
        b"\x01\x01\x00\x00\x00\x01a1\x03\x00\x00\x00\x00\x00".as_slice()
    );
    Ok(())
}
