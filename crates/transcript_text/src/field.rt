ghost use Rattle.std.specs.Prelude.{◌≡◌, ◌++◌, ◌∷◌, [], decimal, OnOk, OnErr};
ghost use Rattle.std.specs.List.{flat_map};
ghost use Rattle.hex.specs.Hex.{encode_lower};
ghost use Rattle.nop_types.specs.Lists.{IsPrefixOf};
ghost use Rattle.transcript_text.specs.LineText.{after_space, field_text, field_texts, line_of};
ghost use Rattle.transcript_text.specs.Transcript.{actor_text, dest_text, hex_text, kind_text};
ghost use Rattle.transcript_text.specs.Transcript.{phase_text, up_text};

use nop_types::{Actor, Dest, NoMemory, Phase, kinds};

/// One field of a line of a transcript.
#[derive(Clone, Copy)]
pub enum Field<'a> {
    Word(&'a str),
    Number(u64),
    Name(Actor),
    To(Dest),
    /// The kind of a datagram.
    Kind(u8),
    Crashed(bool),
    Status(Phase),
    Hex(&'a [u8]),
}

#[tactic(auto, unfolding(crate::specs::Transcript::kind_text))]
fn kind_word(kind: u8) -> &'static str
    ensures { result.now ≡ kind_text kind }
{
    match kind {
        kinds::REQUEST => "request",
        kinds::STAMPED => "stamped",
        kinds::REPLY => "reply",
        kinds::INSTALL => "install",
        kinds::INSTALLED => "installed",
        kinds::PING => "ping",
        kinds::PONG => "pong",
        kinds::READ => "read",
        kinds::ANSWER => "answer",
        _ => "fragment",
    }
}

fn phase_word(status: Phase) -> &'static str
    ensures { result.now ≡ phase_text status }
{
    match status {
        Phase::Normal => "normal",
        Phase::Change => "change",
    }
}

fn up_word(crashed: bool) -> &'static str
    ensures { result.now ≡ up_text crashed }
{
    if crashed { "crashed" } else { "up" }
}

fn put_word(word: &str, to: &mut Vec<u8>) -> Result<(), NoMemory>
    ensures ok { OnOk result (to.new.items ≡ to.old.items ++ word.now) }
    ensures err { OnErr result (to.new.items ≡ to.old.items) }
{
    match to.extend_from_slice(word.as_bytes()) {
        Ok(()) => Ok(()),
        Err(_) => Err(NoMemory),
    }
}

fn put_byte(byte: u8, to: &mut Vec<u8>) -> Result<(), NoMemory>
    ensures ok { OnOk result (to.new.items ≡ to.old.items ++ byte ∷ []) }
    ensures err { OnErr result (to.new.items ≡ to.old.items) }
{
    match to.push(byte) {
        Ok(()) => Ok(()),
        Err(_) => Err(NoMemory),
    }
}

/// Appends a number in decimal.
pub fn put_number(n: u64, to: &mut Vec<u8>) -> Result<(), NoMemory>
    ensures ok { OnOk result (to.new.items ≡ to.old.items ++ decimal n) }
    ensures err { OnErr result (to.new.items ≡ to.old.items) }
{
    let mut buffer = itoa::Buffer::new();
    put_word(buffer.format(n), to)
}

fn put_numbered(letter: u8, n: u64, to: &mut Vec<u8>) -> Result<(), NoMemory>
    ensures ok { OnOk result (to.new.items ≡ to.old.items ++ (letter ∷ decimal n)) }
    ensures err { OnErr result (IsPrefixOf to.old.items to.new.items) }
{
    put_byte(letter, to)?;
    put_number(n, to)
}

/// Controller 0 has no number in its name.
fn put_controller(number: u8, to: &mut Vec<u8>) -> Result<(), NoMemory>
    ensures ok { OnOk result (to.new.items ≡ to.old.items
        ++ actor_text (Actor.Controller number)) }
    ensures err { OnErr result (IsPrefixOf to.old.items to.new.items) }
{
    put_word("ctl", to)?;
    if number == 0 {
        return Ok(());
    }
    put_number(u64::from(number), to)
}

fn put_actor(actor: Actor, to: &mut Vec<u8>) -> Result<(), NoMemory>
    ensures ok { OnOk result (to.new.items ≡ to.old.items ++ actor_text actor) }
    ensures err { OnErr result (IsPrefixOf to.old.items to.new.items) }
{
    match actor {
        Actor::Replica(i) => put_numbered(b'r', u64::from(i), to),
        Actor::Sequencer(i) => put_numbered(b's', u64::from(i), to),
        Actor::Client(i) => put_numbered(b'c', u64::from(i), to),
        Actor::Controller(i) => put_controller(i, to),
        Actor::Observer(i) => put_numbered(b'o', u64::from(i), to),
    }
}

fn put_dest(dest: Dest, to: &mut Vec<u8>) -> Result<(), NoMemory>
    ensures ok { OnOk result (to.new.items ≡ to.old.items ++ dest_text dest) }
    ensures err { OnErr result (IsPrefixOf to.old.items to.new.items) }
{
    match dest {
        Dest::Replicas => put_word("r*", to),
        Dest::Sequencers => put_word("s*", to),
        Dest::One(actor) => put_actor(actor, to),
    }
}

fn put_digits(bytes: &[u8], to: &mut Vec<u8>) -> Result<(), NoMemory>
    ensures ok { OnOk result (to.new.items ≡ to.old.items ++ encode_lower bytes.now) }
    ensures err { OnErr result (to.new.items ≡ to.old.items) }
{
    let start = to.len();
    let end = start.saturating_add(bytes.len().saturating_mul(2));
    if to.resize(end, 0).is_err() {
        return Err(NoMemory);
    }
    match hex::encode_to_slice(bytes, &mut to[start..]) {
        Ok(()) => Ok(()),
        Err(_) => unreachable!(),
    }
}

fn put_hex(bytes: &[u8], to: &mut Vec<u8>) -> Result<(), NoMemory>
    ensures ok { OnOk result (to.new.items ≡ to.old.items ++ hex_text bytes.now) }
    ensures err { OnErr result (to.new.items ≡ to.old.items) }
{
    if bytes.is_empty() {
        return put_byte(b'-', to);
    }
    put_digits(bytes, to)
}

fn put_field(field: Field<'_>, to: &mut Vec<u8>) -> Result<(), NoMemory>
    ensures ok { OnOk result (to.new.items ≡ to.old.items ++ field_text field.entry) }
    ensures err { OnErr result (IsPrefixOf to.old.items to.new.items) }
{
    match field {
        Field::Word(word) => put_word(word, to),
        Field::Number(n) => put_number(n, to),
        Field::Name(actor) => put_actor(actor, to),
        Field::To(dest) => put_dest(dest, to),
        Field::Kind(kind) => put_word(kind_word(kind), to),
        Field::Crashed(crashed) => put_word(up_word(crashed), to),
        Field::Status(status) => put_word(phase_word(status), to),
        Field::Hex(bytes) => put_hex(bytes, to),
    }
}

/// A space and a field.
fn put_spaced(field: Field<'_>, to: &mut Vec<u8>) -> Result<(), NoMemory>
    ensures ok { OnOk result (to.new.items
        ≡ to.old.items ++ after_space (field_text field.entry)) }
    ensures err { OnErr result (IsPrefixOf to.old.items to.new.items) }
{
    put_byte(b' ', to)?;
    put_field(field, to)
}

fn put_fields(fields: &[Field<'_>], to: &mut Vec<u8>) -> Result<(), NoMemory>
    ensures ok { OnOk result (to.new.items ≡ to.old.items
        ++ flat_map after_space (field_texts fields.now)) }
    ensures err { OnErr result (IsPrefixOf to.old.items to.new.items) }
{
    for field in fields {
        put_spaced(*field, to)?;
    }
    Ok(())
}

fn put_line(word: &str, fields: &[Field<'_>], to: &mut Vec<u8>) -> Result<(), NoMemory>
    ensures ok { OnOk result (to.new.items ≡ to.old.items
        ++ line_of word.now (field_texts fields.now)) }
    ensures err { OnErr result (IsPrefixOf to.old.items to.new.items) }
{
    put_word(word, to)?;
    put_fields(fields, to)?;
    put_byte(b'\n', to)
}

/// Appends a line of a word and further fields.
pub fn write_line(word: &str, fields: &[Field<'_>], to: &mut Vec<u8>) -> Result<(), NoMemory>
    ensures ok { OnOk result (to.new.items ≡ to.old.items
        ++ line_of word.now (field_texts fields.now)) }
    ensures err { OnErr result (to.new.items ≡ to.old.items) }
{
    let len = to.len();
    let written = put_line(word, fields, to);
    if written.is_err() {
        to.truncate(len);
    }
    written
}
