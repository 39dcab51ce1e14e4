//! The fields of a fixed size of each kind, up to an op, a key, a result or a payload.

ghost use Rattle.std.specs.Prelude.{◌≡◌, option_map};
ghost use Rattle.oum_codec.specs.Fixed.{request_fields_at, request_in_range, read_in_range, stamped_fields_at, stamped_in_range};
ghost use Rattle.oum_codec.specs.Fixed.{reply_fields_at, reply_in_range, tag_fits, install_fields_at, install_in_range};
ghost use Rattle.oum_codec.specs.Fixed.{ping_fields_at, ping_in_range, fragment_fields_at, fragment_in_range, least_payload};
ghost use Rattle.oum_codec.specs.Fixed.{answer_fields_at, answer_in_range};

use crate::fields::{split_u8, split_u16, split_u32, split_u64, split_view};
use nop_types::{
    FRAGMENT_BYTES, MAX_CONTROLLERS, MAX_FRAGMENTS, MAX_KEY_BYTES, MAX_OBSERVERS, MAX_OP_BYTES,
    MAX_REPLICAS, MAX_RESULT_BYTES, MAX_SEQUENCERS, NUMBER_END, View,
};

/// Of a request, or of a read, which has a key in the place of the op.
#[derive(Clone, Copy)]
pub struct RequestFields {
    pub client: u32,
    pub id: u64,
    pub op_len: u16,
}

impl RequestFields {
    #[tactic(auto, unfolding(crate::specs::Fixed::request_fields_at))]
    pub fn split(bytes: &[u8]) -> Option<(RequestFields, &[u8])>
        ensures { option_map (λ x. (x.0, x.1.now)) result ≡ request_fields_at bytes.now }
    {
        let (client, rest) = split_u32(bytes)?;
        let (id, rest) = split_u64(rest)?;
        let (op_len, rest) = split_u16(rest)?;
        Some((RequestFields { client, id, op_len }, rest))
    }

    pub fn is_in_range(self) -> bool
        ensures { result ≡ request_in_range self }
    {
        0 < self.id && self.op_len as usize <= MAX_OP_BYTES
    }

    /// The ranges of a read.
    pub fn is_in_range_of_read(self) -> bool
        ensures { result ≡ read_in_range self }
    {
        0 < self.id && 0 < self.op_len && self.op_len as usize <= MAX_KEY_BYTES
    }
}

#[derive(Clone, Copy)]
pub struct StampedFields {
    pub session: u64,
    pub number: u64,
    pub request: RequestFields,
}

impl StampedFields {
    #[tactic(auto, unfolding(crate::specs::Fixed::stamped_fields_at))]
    pub fn split(bytes: &[u8]) -> Option<(StampedFields, &[u8])>
        ensures { option_map (λ x. (x.0, x.1.now)) result ≡ stamped_fields_at bytes.now }
    {
        let (session, rest) = split_u64(bytes)?;
        let (number, rest) = split_u64(rest)?;
        let (request, rest) = RequestFields::split(rest)?;
        let fields = StampedFields {
            session,
            number,
            request,
        };
        Some((fields, rest))
    }

    pub fn is_in_range(self) -> bool
        ensures { result ≡ stamped_in_range self }
    {
        0 < self.session
            && 0 < self.number
            && self.number < NUMBER_END
            && self.request.is_in_range()
    }
}

#[derive(Clone, Copy)]
pub struct ReplyFields {
    pub replica: u8,
    pub view: View,
    pub slot: u32,
    pub client: u32,
    pub id: u64,
    pub tag: u8,
    pub result_len: u16,
}

impl ReplyFields {
    #[tactic(auto, unfolding(crate::specs::Fixed::reply_fields_at))]
    pub fn split(bytes: &[u8]) -> Option<(ReplyFields, &[u8])>
        ensures { option_map (λ x. (x.0, x.1.now)) result ≡ reply_fields_at bytes.now }
    {
        let (replica, rest) = split_u8(bytes)?;
        let (view, rest) = split_view(rest)?;
        let (slot, rest) = split_u32(rest)?;
        let (client, rest) = split_u32(rest)?;
        let (id, rest) = split_u64(rest)?;
        let (tag, rest) = split_u8(rest)?;
        let (result_len, rest) = split_u16(rest)?;
        let fields = ReplyFields {
            replica,
            view,
            slot,
            client,
            id,
            tag,
            result_len,
        };
        Some((fields, rest))
    }

    pub fn is_in_range(self) -> bool
        ensures { result ≡ reply_in_range self }
    {
        self.replica < MAX_REPLICAS
            && 0 < self.view.session
            && 0 < self.slot
            && 0 < self.id
            && is_tag(self.tag, self.result_len)
    }
}

fn is_tag(tag: u8, result_len: u16) -> bool
    ensures { result ≡ tag_fits tag result_len }
{
    tag <= 1 && result_len as usize <= MAX_RESULT_BYTES && (0 < tag || result_len == 0)
}

/// Of an install or an installed.
#[derive(Clone, Copy)]
pub struct InstallFields {
    pub controller: u8,
    pub sequencer: u8,
    pub session: u64,
}

impl InstallFields {
    #[tactic(auto, unfolding(crate::specs::Fixed::install_fields_at))]
    pub fn split(bytes: &[u8]) -> Option<(InstallFields, &[u8])>
        ensures { option_map (λ x. (x.0, x.1.now)) result ≡ install_fields_at bytes.now }
    {
        let (controller, rest) = split_u8(bytes)?;
        let (sequencer, rest) = split_u8(rest)?;
        let (session, rest) = split_u64(rest)?;
        let fields = InstallFields {
            controller,
            sequencer,
            session,
        };
        Some((fields, rest))
    }

    pub fn is_in_range(self) -> bool
        ensures { result ≡ install_in_range self }
    {
        self.controller < MAX_CONTROLLERS && self.sequencer < MAX_SEQUENCERS && 0 < self.session
    }
}

/// Of a ping or a pong.
#[derive(Clone, Copy)]
pub struct PingFields {
    pub controller: u8,
    pub sequencer: u8,
    pub round: u32,
}

impl PingFields {
    #[tactic(auto, unfolding(crate::specs::Fixed::ping_fields_at))]
    pub fn split(bytes: &[u8]) -> Option<(PingFields, &[u8])>
        ensures { option_map (λ x. (x.0, x.1.now)) result ≡ ping_fields_at bytes.now }
    {
        let (controller, rest) = split_u8(bytes)?;
        let (sequencer, rest) = split_u8(rest)?;
        let (round, rest) = split_u32(rest)?;
        let fields = PingFields {
            controller,
            sequencer,
            round,
        };
        Some((fields, rest))
    }

    pub fn is_in_range(self) -> bool
        ensures { result ≡ ping_in_range self }
    {
        self.controller < MAX_CONTROLLERS && self.sequencer < MAX_SEQUENCERS && 0 < self.round
    }
}

#[derive(Clone, Copy)]
pub struct FragmentFields {
    pub replica: u8,
    pub message: u64,
    pub index: u16,
    pub count: u16,
}

impl FragmentFields {
    #[tactic(auto, unfolding(crate::specs::Fixed::fragment_fields_at))]
    pub fn split(bytes: &[u8]) -> Option<(FragmentFields, &[u8])>
        ensures { option_map (λ x. (x.0, x.1.now)) result ≡ fragment_fields_at bytes.now }
    {
        let (replica, rest) = split_u8(bytes)?;
        let (message, rest) = split_u64(rest)?;
        let (index, rest) = split_u16(rest)?;
        let (count, rest) = split_u16(rest)?;
        let fields = FragmentFields {
            replica,
            message,
            index,
            count,
        };
        Some((fields, rest))
    }

    pub fn is_in_range(self) -> bool
        ensures { result ≡ fragment_in_range self }
    {
        self.replica < MAX_REPLICAS
            && 0 < self.message
            && self.index < self.count
            && self.count as usize <= MAX_FRAGMENTS
    }

    /// The least size of the payload.
    pub fn least_payload(self) -> usize
        ensures { result ≡ least_payload self }
    {
        if (self.index as usize) + 1 < self.count as usize {
            FRAGMENT_BYTES
        } else {
            1
        }
    }
}

#[derive(Clone, Copy)]
pub struct AnswerFields {
    pub observer: u8,
    pub position: u32,
    pub client: u32,
    pub id: u64,
    pub result_len: u16,
}

impl AnswerFields {
    #[tactic(auto, unfolding(crate::specs::Fixed::answer_fields_at))]
    pub fn split(bytes: &[u8]) -> Option<(AnswerFields, &[u8])>
        ensures { option_map (λ x. (x.0, x.1.now)) result ≡ answer_fields_at bytes.now }
    {
        let (observer, rest) = split_u8(bytes)?;
        let (position, rest) = split_u32(rest)?;
        let (client, rest) = split_u32(rest)?;
        let (id, rest) = split_u64(rest)?;
        let (result_len, rest) = split_u16(rest)?;
        let fields = AnswerFields {
            observer,
            position,
            client,
            id,
            result_len,
        };
        Some((fields, rest))
    }

    pub fn is_in_range(self) -> bool
        ensures { result ≡ answer_in_range self }
    {
        self.observer < MAX_OBSERVERS && 0 < self.id && self.result_len as usize <= MAX_RESULT_BYTES
    }
}
