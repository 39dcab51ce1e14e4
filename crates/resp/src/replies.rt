//! Replies.

ghost use Rattle.std.specs.Prelude.{◌≡◌, ◌++◌, decimal, OnOk, OnErr};
ghost use Rattle.nop_types.specs.Lists.{IsPrefixOf};
ghost use Rattle.resp.specs.Spelling.{bulk, line_end, line_of};
ghost use Rattle.resp.specs.Replies.{reply_bytes, text_line};

use nop_types::NoMemory;

/// What is replied to a request. A text has no end of a line in it.
#[derive(Clone, Copy)]
pub enum Reply<'a> {
    /// What was asked is done.
    Simple(&'a str),
    /// It is not done. The first word is the kind of error.
    Error(&'a str),
    Integer(u64),
    Bulk(&'a [u8]),
    /// There is no value.
    Nil,
    /// An array without elements.
    Empty,
}

fn put(bytes: &[u8], to: &mut Vec<u8>) -> Result<(), NoMemory>
    ensures ok { OnOk result (to.new.items ≡ to.old.items ++ bytes.now) }
    ensures err { OnErr result (to.new.items ≡ to.old.items) }
{
    match to.extend_from_slice(bytes) {
        Ok(()) => Ok(()),
        Err(_) => Err(NoMemory),
    }
}

fn put_text(sign: &[u8], text: &str, to: &mut Vec<u8>) -> Result<(), NoMemory>
    ensures ok { OnOk result (to.new.items ≡ to.old.items ++ text_line sign.now text.now) }
    ensures err { OnErr result (IsPrefixOf to.old.items to.new.items) }
{
    put(sign, to)?;
    put(text.as_bytes(), to)?;
    put(b"\r\n", to)
}

fn put_line(sign: &[u8], n: u64, to: &mut Vec<u8>) -> Result<(), NoMemory>
    ensures ok { OnOk result (to.new.items ≡ to.old.items ++ text_line sign.now (decimal n)) }
    ensures err { OnErr result (IsPrefixOf to.old.items to.new.items) }
{
    let mut buffer = itoa::Buffer::new();
    put_text(sign, buffer.format(n), to)
}

#[tactic(auto, unfolding(crate::specs::Spelling::bulk))]
fn put_bulk(bytes: &[u8], to: &mut Vec<u8>) -> Result<(), NoMemory>
    ensures ok { OnOk result (to.new.items ≡ to.old.items ++ bulk bytes.now) }
    ensures err { OnErr result (IsPrefixOf to.old.items to.new.items) }
{
    put_line(b"$", bytes.len() as u64, to)?;
    put(bytes, to)?;
    put(b"\r\n", to)
}

/// Appends the bytes of a reply. Where memory runs out, some of them may have been appended.
pub fn put_reply(reply: Reply<'_>, to: &mut Vec<u8>) -> Result<(), NoMemory>
    ensures ok { OnOk result (to.new.items ≡ to.old.items ++ reply_bytes reply.entry) }
    ensures err { OnErr result (IsPrefixOf to.old.items to.new.items) }
{
    match reply {
        Reply::Simple(text) => put_text(b"+", text, to),
        Reply::Error(text) => put_text(b"-", text, to),
        Reply::Integer(n) => put_line(b":", n, to),
        Reply::Bulk(bytes) => put_bulk(bytes, to),
        Reply::Nil => put_text(b"$", "-1", to),
        Reply::Empty => put_text(b"*", "0", to),
    }
}
