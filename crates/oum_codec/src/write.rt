ghost use Rattle.std.specs.Prelude.{◌≡◌, ◌++◌, ◌<◌, ◌≤◌, ◌^◌, ◌∷◌, [], length, OnOk, OnErr, IfOk};
ghost use Rattle.std.specs.Int.{w16, w32, w64};
ghost use Rattle.nop_types.specs.Ranges.{DatagramFits, ReplyFits};
ghost use Rattle.oum_codec.specs.Numbers.{be_bytes};
ghost use Rattle.oum_codec.specs.Spelling.{view_bytes, counted_bytes, request_bytes, stamped_bytes, reply_bytes};
ghost use Rattle.oum_codec.specs.Spelling.{install_bytes, ping_bytes, read_bytes, answer_bytes, header, spelling};

use nop_types::kinds::FRAGMENT_HEADER_BYTES;
use nop_types::{
    Answer, Datagram, MAX_RESULT_BYTES, NoMemory, Read, Reply, Request, Stamped, View, kinds,
};
use std::alloc::Global;

/// Appends two bytes.
#[tactic(auto, unfolding(crate::specs::Numbers::be_bytes))]
pub(crate) fn put_u16(to: &mut Vec<u8>, n: u16) -> Result<(), NoMemory>
    ensures ok { OnOk result (to.new.items ≡ to.old.items ++ be_bytes w16 n) }
    ensures err { OnErr result (to.new.items ≡ to.old.items) }
{
    to.extend_from_slice(&n.to_be_bytes())?;
    Ok(())
}

/// Appends four bytes.
#[tactic(auto, unfolding(crate::specs::Numbers::be_bytes))]
pub fn put_u32(to: &mut Vec<u8>, n: u32) -> Result<(), NoMemory>
    ensures ok { OnOk result (to.new.items ≡ to.old.items ++ be_bytes w32 n) }
    ensures err { OnErr result (to.new.items ≡ to.old.items) }
{
    to.extend_from_slice(&n.to_be_bytes())?;
    Ok(())
}

/// Appends eight bytes.
#[tactic(auto, unfolding(crate::specs::Numbers::be_bytes))]
pub fn put_u64(to: &mut Vec<u8>, n: u64) -> Result<(), NoMemory>
    ensures ok { OnOk result (to.new.items ≡ to.old.items ++ be_bytes w64 n) }
    ensures err { OnErr result (to.new.items ≡ to.old.items) }
{
    to.extend_from_slice(&n.to_be_bytes())?;
    Ok(())
}

#[tactic(auto, unfolding(crate::specs::Numbers::be_bytes))]
fn view_header(view: View) -> [u8; 12]
    ensures { result ≡ view_bytes view }
{
    let [l0, l1, l2, l3] = view.leader.to_be_bytes();
    let [s0, s1, s2, s3, s4, s5, s6, s7] = view.session.to_be_bytes();
    [l0, l1, l2, l3, s0, s1, s2, s3, s4, s5, s6, s7]
}

/// Appends the leader number, then the session.
pub fn put_view(to: &mut Vec<u8>, view: View) -> Result<(), NoMemory>
    ensures ok { OnOk result (to.new.items ≡ to.old.items ++ view_bytes view) }
    ensures err { OnErr result (to.new.items ≡ to.old.items) }
{
    to.extend_from_slice(&view_header(view))?;
    Ok(())
}

/// Appends both pieces, or none of them.
// In place, since most callers have a front of a fixed length.
#[inline(always)]
fn put_both(to: &mut Vec<u8>, prefix: &[u8], back: &[u8]) -> Result<(), NoMemory>
    ensures ok { OnOk result (to.new.items ≡ to.old.items ++ (prefix.now ++ back.now)) }
    ensures err { OnErr result (to.new.items ≡ to.old.items) }
{
    let len = to.len();
    to.extend_from_slice(prefix)?;
    if to.extend_from_slice(back).is_err() {
        to.truncate(len);
        return Err(NoMemory);
    }
    Ok(())
}

/// A client, an id and a length: all of a request but its op, of a read but its key, and the end of an answer but its result.
#[tactic(auto, unfolding(crate::specs::Numbers::be_bytes))]
fn request_header(client: u32, id: u64, op_len: u16) -> [u8; 14]
    ensures { result ≡ be_bytes w32 client ++ be_bytes w64 id ++ be_bytes w16 op_len }
{
    let [c0, c1, c2, c3] = client.to_be_bytes();
    let [i0, i1, i2, i3, i4, i5, i6, i7] = id.to_be_bytes();
    let [o0, o1] = op_len.to_be_bytes();
    [c0, c1, c2, c3, i0, i1, i2, i3, i4, i5, i6, i7, o0, o1]
}

/// Appends client, id, the length of the op and the op.
pub fn put_request(to: &mut Vec<u8>, request: &Request) -> Result<(), NoMemory>
    ensures ok { OnOk result (to.new.items ≡ to.old.items ++ request_bytes request.now) }
    ensures err { OnErr result (to.new.items ≡ to.old.items) }
{
    let op = request.op.as_slice();
    put_both(
        to,
        &request_header(request.client, request.id, op.len() as u16),
        op,
    )
}

fn put_stamped(to: &mut Vec<u8>, stamped: &Stamped) -> Result<(), NoMemory>
    ensures { OnOk result (to.new.items ≡ to.old.items ++ stamped_bytes stamped.now) }
{
    put_u64(to, stamped.session)?;
    put_u64(to, stamped.number)?;
    put_request(to, &stamped.request)
}

/// All of a reply but its result: the header, who replies for which slot, to which request, the tag and the length of the result.
#[tactic(auto, unfolding(crate::specs::Numbers::be_bytes))]
fn reply_header(reply: &Reply, result_len: u16) -> [u8; 36]
    ensures { result ≡ header 3 ++ (reply.now.replica ∷ [] ++ view_bytes reply.now.view
        ++ be_bytes w32 reply.now.slot ++ be_bytes w32 reply.now.client
        ++ be_bytes w64 reply.now.id ++ reply.now.tag ∷ [] ++ be_bytes w16 result_len) }
{
    let [l0, l1, l2, l3] = reply.view.leader.to_be_bytes();
    let [s0, s1, s2, s3, s4, s5, s6, s7] = reply.view.session.to_be_bytes();
    let [n0, n1, n2, n3] = reply.slot.to_be_bytes();
    let [c0, c1, c2, c3] = reply.client.to_be_bytes();
    let [i0, i1, i2, i3, i4, i5, i6, i7] = reply.id.to_be_bytes();
    let [r0, r1] = result_len.to_be_bytes();
    [
        kinds::FIRST_MAGIC,
        kinds::SECOND_MAGIC,
        kinds::VERSION,
        kinds::REPLY,
        reply.replica,
        l0,
        l1,
        l2,
        l3,
        s0,
        s1,
        s2,
        s3,
        s4,
        s5,
        s6,
        s7,
        n0,
        n1,
        n2,
        n3,
        c0,
        c1,
        c2,
        c3,
        i0,
        i1,
        i2,
        i3,
        i4,
        i5,
        i6,
        i7,
        reply.tag,
        r0,
        r1,
    ]
}

/// Appends a reply in two pieces, since a step may give thousands.
fn put_reply(to: &mut Vec<u8>, reply: &Reply) -> Result<(), NoMemory>
    requires { length reply.now.result ≤ MAX_RESULT_BYTES }
    ensures { OnOk result (to.new.items ≡ to.old.items ++ (header 3 ++ reply_bytes reply.now)) }
{
    let result = reply.result.as_slice();
    put_both(to, &reply_header(reply, result.len() as u16), result)
}

fn put_header(to: &mut Vec<u8>, kind: u8) -> Result<(), NoMemory>
    ensures { OnOk result (to.new.items ≡ to.old.items ++ header kind) }
{
    to.extend_from_slice(&[
        kinds::FIRST_MAGIC,
        kinds::SECOND_MAGIC,
        kinds::VERSION,
        kind,
    ])?;
    Ok(())
}

/// Appends an Install or an Installed, whichever kind it is.
fn put_install(
    to: &mut Vec<u8>,
    kind: u8,
    controller: u8,
    sequencer: u8,
    session: u64,
) -> Result<(), NoMemory>
    ensures { OnOk result (to.new.items ≡ to.old.items
        ++ (header kind ++ install_bytes controller sequencer session)) }
{
    put_header(to, kind)?;
    to.extend_from_slice(&[controller, sequencer])?;
    put_u64(to, session)
}

/// Appends a Ping or a Pong, whichever kind it is.
fn put_ping(
    to: &mut Vec<u8>,
    kind: u8,
    controller: u8,
    sequencer: u8,
    round: u32,
) -> Result<(), NoMemory>
    ensures { OnOk result (to.new.items ≡ to.old.items
        ++ (header kind ++ ping_bytes controller sequencer round)) }
{
    put_header(to, kind)?;
    to.extend_from_slice(&[controller, sequencer])?;
    put_u32(to, round)
}

/// All of a fragment but its payload.
#[tactic(auto, unfolding(crate::specs::Numbers::be_bytes))]
fn fragment_header(replica: u8, message: u64, index: u16, count: u16) -> [u8; FRAGMENT_HEADER_BYTES]
    ensures { result ≡ header 8 ++ (replica ∷ [] ++ be_bytes w64 message
        ++ be_bytes w16 index ++ be_bytes w16 count) }
{
    let [m0, m1, m2, m3, m4, m5, m6, m7] = message.to_be_bytes();
    let [i0, i1] = index.to_be_bytes();
    let [c0, c1] = count.to_be_bytes();
    [
        kinds::FIRST_MAGIC,
        kinds::SECOND_MAGIC,
        kinds::VERSION,
        kinds::FRAGMENT,
        replica,
        m0,
        m1,
        m2,
        m3,
        m4,
        m5,
        m6,
        m7,
        i0,
        i1,
        c0,
        c1,
    ]
}

/// Appends a fragment's spelling, from its fields and its payload.
pub fn put_fragment(
    to: &mut Vec<u8>,
    replica: u8,
    message: u64,
    index: u16,
    count: u16,
    payload: &[u8],
) -> Result<(), NoMemory>
    ensures ok { OnOk result (to.new.items ≡ to.old.items
        ++ spelling (Datagram.Fragment (record {
          replica = replica;
          message = message;
          index = index;
          count = count;
          payload = payload.now;
        }))) }
    ensures err { OnErr result (to.new.items ≡ to.old.items) }
{
    put_both(
        to,
        &fragment_header(replica, message, index, count),
        payload,
    )
}

fn put_read(to: &mut Vec<u8>, read: &Read) -> Result<(), NoMemory>
    ensures { OnOk result (to.new.items ≡ to.old.items ++ (header 9 ++ read_bytes read.now)) }
{
    put_header(to, kinds::READ)?;
    let key = read.key.as_slice();
    put_both(
        to,
        &request_header(read.client, read.id, key.len() as u16),
        key,
    )
}

fn put_answer(to: &mut Vec<u8>, answer: &Answer) -> Result<(), NoMemory>
    requires { length answer.now.result ≤ MAX_RESULT_BYTES }
    ensures { OnOk result (to.new.items ≡ to.old.items ++ (header 10 ++ answer_bytes answer.now)) }
{
    put_header(to, kinds::ANSWER)?;
    to.extend_from_slice(&[answer.observer])?;
    put_u32(to, answer.position)?;
    let result = answer.result.as_slice();
    put_both(
        to,
        &request_header(answer.client, answer.id, result.len() as u16),
        result,
    )
}

fn put(to: &mut Vec<u8>, datagram: &Datagram) -> Result<(), NoMemory>
    requires { DatagramFits datagram.now }
    ensures { OnOk result (to.new.items ≡ to.old.items ++ spelling datagram.now) }
{
    match datagram {
        Datagram::Request(request) => {
            put_header(to, kinds::REQUEST)?;
            put_request(to, request)
        }
        Datagram::Stamped(stamped) => {
            put_header(to, kinds::STAMPED)?;
            put_stamped(to, stamped)
        }
        Datagram::Reply(reply) => put_reply(to, reply),
        Datagram::Install {
            controller,
            sequencer,
            session,
        } => put_install(to, kinds::INSTALL, *controller, *sequencer, *session),
        Datagram::Installed {
            controller,
            sequencer,
            session,
        } => put_install(to, kinds::INSTALLED, *controller, *sequencer, *session),
        Datagram::Ping {
            controller,
            sequencer,
            round,
        } => put_ping(to, kinds::PING, *controller, *sequencer, *round),
        Datagram::Pong {
            controller,
            sequencer,
            round,
        } => put_ping(to, kinds::PONG, *controller, *sequencer, *round),
        Datagram::Fragment(fragment) => put_fragment(
            to,
            fragment.replica,
            fragment.message,
            fragment.index,
            fragment.count,
            fragment.payload.as_slice(),
        ),
        Datagram::Read(read) => put_read(to, read),
        Datagram::Answer(answer) => put_answer(to, answer),
    }
}

/// How many bytes the spelling has.
#[tactic(auto, unfolding(crate::specs::Numbers::be_bytes))]
fn spelled_len(datagram: &Datagram) -> usize
    requires { DatagramFits datagram.now }
    ensures { result ≡ length (spelling datagram.now) }
{
    match datagram {
        Datagram::Request(request) => 18 + request.op.as_slice().len(),
        Datagram::Stamped(stamped) => 34 + stamped.request.op.as_slice().len(),
        Datagram::Reply(reply) => 36 + reply.result.as_slice().len(),
        Datagram::Fragment(fragment) => FRAGMENT_HEADER_BYTES + fragment.payload.as_slice().len(),
        Datagram::Read(read) => 18 + read.key.as_slice().len(),
        Datagram::Answer(answer) => 23 + answer.result.as_slice().len(),
        Datagram::Install { .. } | Datagram::Installed { .. } => 14,
        Datagram::Ping { .. } | Datagram::Pong { .. } => 10,
    }
}

/// Appends the datagram's one spelling. An empty `to` becomes a vector with room for just that.
pub fn encode(alloc: Global, datagram: &Datagram, to: &mut Vec<u8>) -> Result<(), NoMemory>
    requires { DatagramFits datagram.now }
    ensures ok { OnOk result (to.new.items ≡ to.old.items ++ spelling datagram.now) }
    ensures err { OnErr result (to.new.items ≡ to.old.items) }
{
    let mut bytes = Vec::with_capacity(alloc, spelled_len(datagram))?;
    put(&mut bytes, datagram)?;
    if to.is_empty() {
        *to = bytes;
        return Ok(());
    }
    to.extend_from_slice(&bytes)?;
    Ok(())
}

/// A reply's one spelling, in a vector with room for just that.
pub fn encode_reply(alloc: Global, reply: &Reply) -> Result<Vec<u8>, NoMemory>
    requires { ReplyFits reply.now }
    ensures { IfOk result (λ bytes. bytes.items ≡ spelling (Datagram.Reply reply.now)) }
{
    let mut bytes = Vec::with_capacity(alloc, 36 + reply.result.as_slice().len())?;
    put_reply(&mut bytes, reply)?;
    Ok(bytes)
}
