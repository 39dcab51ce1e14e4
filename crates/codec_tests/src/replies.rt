//! Replies of RESP, and the bytes that are written for them.
use resp::{Reply, put_reply};
use std::process::Abort;

fn put(rt: &impl Abort, reply: Reply<'_>, to: &mut Vec<u8>) {
    put_reply(reply, to).expect(rt, "memory");
}

#[test]
fn replies_are_written(rt: HostRuntime) {
    let mut text = Vec::new(rt.alloc());
    put(&rt, Reply::Simple("OK"), &mut text);
    put(&rt, Reply::Error("ERR no"), &mut text);
    put(&rt, Reply::Integer(1000), &mut text);
    put(&rt, Reply::Bulk(b"a\r\nb"), &mut text);
    put(&rt, Reply::Bulk(b""), &mut text);
    put(&rt, Reply::Nil, &mut text);
    put(&rt, Reply::Empty, &mut text);
    assert!(rt;
        text.as_slice()
            == b"+OK\r\n-ERR no\r\n:1000\r\n$4\r\na\r\nb\r\n$0\r\n\r\n$-1\r\n*0\r\n".as_slice()
    );
}
