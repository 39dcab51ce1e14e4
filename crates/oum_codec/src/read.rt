ghost use Rattle.std.specs.Prelude.{◌≡◌, ◌⊎◌, IfOk, IfSome};
ghost use Rattle.nop_types.specs.declared.datagram.Datagram.{Datagram};
ghost use Rattle.oum_codec.specs.Spelling.{Spells};
ghost use Rattle.oum_codec.specs.Reading.{Finds, Gives, GivesBy, sized, request_of, stamped_of, reply_of};
ghost use Rattle.oum_codec.specs.Reading.{install_of, ping_of, fragment_of, read_of, answer_of, body_of, reading};

use crate::Bad;
use crate::fixed::{
    AnswerFields, FragmentFields, InstallFields, PingFields, ReplyFields, RequestFields,
    StampedFields,
};
use nop_types::{
    Answer, Bytes, Datagram, FRAGMENT_BYTES, Fragment, Key, NoMemory, Op, Read, Reply, Request,
    Stamped, kinds,
};
use std::alloc::Global;

/// The bytes, where there are at least `least` and at most `most`.
fn within(bytes: &[u8], least: usize, most: usize) -> Result<&[u8], Bad>
    ensures { GivesBy (λ b. b.now) result (sized least most bytes.now) }
{
    if bytes.len() < least {
        return Err(Bad::Short);
    }
    if most < bytes.len() {
        return Err(Bad::Trailing);
    }
    Ok(bytes)
}

#[tactic(auto, unfolding(crate::specs::Reading::request_of))]
fn request(alloc: Global, bytes: &[u8]) -> Result<Datagram, Bad>
    ensures { Gives result (request_of bytes.now) }
{
    let Some((fields, rest)) = RequestFields::split(bytes) else {
        return Err(Bad::Short);
    };
    if !fields.is_in_range() {
        return Err(Bad::Field);
    }
    let len = fields.op_len as usize;
    let op = Op::new(alloc, within(rest, len, len)?)?;
    Ok(Datagram::Request(Request {
        client: fields.client,
        id: fields.id,
        op,
    }))
}

#[tactic(auto, unfolding(crate::specs::Reading::stamped_of))]
fn stamped(alloc: Global, bytes: &[u8]) -> Result<Datagram, Bad>
    ensures { Gives result (stamped_of bytes.now) }
{
    let Some((fields, rest)) = StampedFields::split(bytes) else {
        return Err(Bad::Short);
    };
    if !fields.is_in_range() {
        return Err(Bad::Field);
    }
    let len = fields.request.op_len as usize;
    let op = Op::new(alloc, within(rest, len, len)?)?;
    Ok(Datagram::Stamped(Stamped {
        session: fields.session,
        number: fields.number,
        request: Request {
            client: fields.request.client,
            id: fields.request.id,
            op,
        },
    }))
}

#[tactic(auto, unfolding(crate::specs::Reading::reply_of))]
fn reply(alloc: Global, bytes: &[u8]) -> Result<Datagram, Bad>
    ensures { Gives result (reply_of bytes.now) }
{
    let Some((fields, rest)) = ReplyFields::split(bytes) else {
        return Err(Bad::Short);
    };
    if !fields.is_in_range() {
        return Err(Bad::Field);
    }
    let len = fields.result_len as usize;
    let bytes = Bytes::new(alloc, within(rest, len, len)?)?;
    Ok(Datagram::Reply(Reply {
        replica: fields.replica,
        view: fields.view,
        slot: fields.slot,
        client: fields.client,
        id: fields.id,
        tag: fields.tag,
        result: bytes,
    }))
}

#[tactic(auto, unfolding(crate::specs::Reading::install_of))]
fn install(bytes: &[u8]) -> Result<InstallFields, Bad>
    ensures { Gives result (install_of bytes.now) }
{
    let Some((fields, rest)) = InstallFields::split(bytes) else {
        return Err(Bad::Short);
    };
    if !fields.is_in_range() {
        return Err(Bad::Field);
    }
    within(rest, 0, 0)?;
    Ok(fields)
}

#[tactic(auto, unfolding(crate::specs::Reading::ping_of))]
fn ping(bytes: &[u8]) -> Result<PingFields, Bad>
    ensures { Gives result (ping_of bytes.now) }
{
    let Some((fields, rest)) = PingFields::split(bytes) else {
        return Err(Bad::Short);
    };
    if !fields.is_in_range() {
        return Err(Bad::Field);
    }
    within(rest, 0, 0)?;
    Ok(fields)
}

#[tactic(auto, unfolding(crate::specs::Reading::fragment_of))]
fn fragment(alloc: Global, bytes: &[u8]) -> Result<Datagram, Bad>
    ensures { Gives result (fragment_of bytes.now) }
{
    let Some((fields, rest)) = FragmentFields::split(bytes) else {
        return Err(Bad::Short);
    };
    if !fields.is_in_range() {
        return Err(Bad::Field);
    }
    let payload = Bytes::new(alloc, within(rest, fields.least_payload(), FRAGMENT_BYTES)?)?;
    Ok(Datagram::Fragment(Fragment {
        replica: fields.replica,
        message: fields.message,
        index: fields.index,
        count: fields.count,
        payload,
    }))
}

#[tactic(auto, unfolding(crate::specs::Reading::read_of))]
fn read(alloc: Global, bytes: &[u8]) -> Result<Datagram, Bad>
    ensures { Gives result (read_of bytes.now) }
{
    let Some((fields, rest)) = RequestFields::split(bytes) else {
        return Err(Bad::Short);
    };
    if !fields.is_in_range_of_read() {
        return Err(Bad::Field);
    }
    let len = fields.op_len as usize;
    let key = Key::new(alloc, within(rest, len, len)?)?;
    Ok(Datagram::Read(Read {
        client: fields.client,
        id: fields.id,
        key,
    }))
}

#[tactic(auto, unfolding(crate::specs::Reading::answer_of))]
fn answer(alloc: Global, bytes: &[u8]) -> Result<Datagram, Bad>
    ensures { Gives result (answer_of bytes.now) }
{
    let Some((fields, rest)) = AnswerFields::split(bytes) else {
        return Err(Bad::Short);
    };
    if !fields.is_in_range() {
        return Err(Bad::Field);
    }
    let len = fields.result_len as usize;
    let bytes = Bytes::new(alloc, within(rest, len, len)?)?;
    Ok(Datagram::Answer(Answer {
        observer: fields.observer,
        position: fields.position,
        client: fields.client,
        id: fields.id,
        result: bytes,
    }))
}

fn body(alloc: Global, kind: u8, rest: &[u8]) -> Result<Datagram, Bad>
    ensures { Gives result (body_of kind rest.now) }
{
    match kind {
        kinds::REQUEST => request(alloc, rest),
        kinds::STAMPED => stamped(alloc, rest),
        kinds::REPLY => reply(alloc, rest),
        kinds::INSTALL => {
            let fields = install(rest)?;
            Ok(Datagram::Install {
                controller: fields.controller,
                sequencer: fields.sequencer,
                session: fields.session,
            })
        }
        kinds::INSTALLED => {
            let fields = install(rest)?;
            Ok(Datagram::Installed {
                controller: fields.controller,
                sequencer: fields.sequencer,
                session: fields.session,
            })
        }
        kinds::PING => {
            let fields = ping(rest)?;
            Ok(Datagram::Ping {
                controller: fields.controller,
                sequencer: fields.sequencer,
                round: fields.round,
            })
        }
        kinds::PONG => {
            let fields = ping(rest)?;
            Ok(Datagram::Pong {
                controller: fields.controller,
                sequencer: fields.sequencer,
                round: fields.round,
            })
        }
        kinds::FRAGMENT => fragment(alloc, rest),
        kinds::READ => read(alloc, rest),
        kinds::ANSWER => answer(alloc, rest),
        _ => Err(Bad::Kind),
    }
}

#[tactic(auto, unfolding(crate::specs::Reading::reading))]
fn datagram(alloc: Global, bytes: &[u8]) -> Result<Datagram, Bad>
    ensures { Gives result (reading bytes.now) }
{
    match bytes {
        [first, second, version, kind, rest @ ..] => {
            if *first != kinds::FIRST_MAGIC || *second != kinds::SECOND_MAGIC {
                return Err(Bad::Magic);
            }
            if *version != kinds::VERSION {
                return Err(Bad::Version);
            }
            body(alloc, *kind, rest)
        }
        _ => Err(Bad::Short),
    }
}

/// The datagram that the bytes spell, or the first test that they fail. No more memory is taken than for the value's op,
/// key, result or payload.
pub fn decode(alloc: Global, bytes: &[u8]) -> Result<Datagram, Bad>
    // What is read is spelled so.
    ensures found { IfOk result (λ d. Spells d bytes.now) }
    // What is spelled so is read, unless memory runs out.
    ensures only { (d : Datagram) → Spells d bytes.now
        → (result ≡ Ok d) ⊎ (result ≡ Err Bad.NoMemory) }
    // Else the first test that fails is answered.
    ensures exact { Gives result (reading bytes.now) }
{
    datagram(alloc, bytes)
}

/// The datagram that the bytes spell, None where they spell none.
pub fn read_datagram(alloc: Global, bytes: &[u8]) -> Result<Option<Datagram>, NoMemory>
    ensures found { IfOk result (λ found. IfSome found (λ d. Spells d bytes.now)) }
    ensures exact { IfOk result (λ found. Finds found (reading bytes.now)) }
{
    match decode(alloc, bytes) {
        Ok(datagram) => Ok(Some(datagram)),
        Err(Bad::NoMemory) => Err(NoMemory),
        Err(_) => Ok(None),
    }
}
