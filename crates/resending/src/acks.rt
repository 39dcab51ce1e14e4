ghost use Rattle.std.specs.Prelude.{◌≡◌};
ghost use Rattle.resending.specs.Acks.{ack_bytes, has_index, is_named, newest, reading};

use crate::names::Name;
use nop_types::kinds::FIRST_MAGIC;

/// The second byte of an acknowledgement, the letter A. That of each datagram of the protocol is another.
const ACK_MAGIC: u8 = 0x41;

/// How many parts an acknowledgement names.
pub const NAMED: usize = 8;

/// How many bytes an acknowledgement has.
pub const ACK_BYTES: usize = 27;

const _: () = prove!(ACK_MAGIC == 0x41 && NAMED == 8 && ACK_BYTES == 27);

/// What a link answers to parts of a message.
#[derive(Clone, Copy, PartialEq, Eq)]
pub struct Ack {
    /// How many parts may be in flight to it from now on; not 0.
    pub window: u8,
    /// The number of the message.
    pub message: u64,
    /// The indexes of parts that came, the last one first. Where fewer came, one stands there more than once.
    pub indexes: [u16; NAMED],
}

fn has_index(indexes: &[u16], index: u16) -> bool
    ensures { result ≡ has_index indexes.now index }
{
    indexes.iter().any(|i| *i == index)
}

impl Ack {
    /// Its one spelling.
    #[tactic(auto, unfolding(crate::specs::Acks::ack_bytes))]
    pub fn to_bytes(self) -> [u8; ACK_BYTES]
        ensures { result ≡ ack_bytes self }
    {
        let [a, b, c, d, e, f, g, h] = self.message.to_be_bytes();
        let [i, j] = self.indexes[0].to_be_bytes();
        let [k, l] = self.indexes[1].to_be_bytes();
        let [m, n] = self.indexes[2].to_be_bytes();
        let [o, p] = self.indexes[3].to_be_bytes();
        let [q, r] = self.indexes[4].to_be_bytes();
        let [s, t] = self.indexes[5].to_be_bytes();
        let [u, v] = self.indexes[6].to_be_bytes();
        let [w, x] = self.indexes[7].to_be_bytes();
        [
            FIRST_MAGIC,
            ACK_MAGIC,
            self.window,
            a,
            b,
            c,
            d,
            e,
            f,
            g,
            h,
            i,
            j,
            k,
            l,
            m,
            n,
            o,
            p,
            q,
            r,
            s,
            t,
            u,
            v,
            w,
            x,
        ]
    }

    /// The acknowledgement that a datagram is; None if it is none.
    #[tactic(auto, unfolding(crate::specs::Acks::reading))]
    pub fn read(bytes: &[u8]) -> Option<Ack>
        ensures { result ≡ reading bytes.now }
    {
        let [
            first,
            second,
            window,
            a,
            b,
            c,
            d,
            e,
            f,
            g,
            h,
            i,
            j,
            k,
            l,
            m,
            n,
            o,
            p,
            q,
            r,
            s,
            t,
            u,
            v,
            w,
            x,
        ] = bytes
        else {
            return None;
        };
        if *first != FIRST_MAGIC || *second != ACK_MAGIC {
            return None;
        }
        if *window == 0 {
            return None;
        }
        Some(Ack {
            window: *window,
            message: u64::from_be_bytes([*a, *b, *c, *d, *e, *f, *g, *h]),
            indexes: [
                u16::from_be_bytes([*i, *j]),
                u16::from_be_bytes([*k, *l]),
                u16::from_be_bytes([*m, *n]),
                u16::from_be_bytes([*o, *p]),
                u16::from_be_bytes([*q, *r]),
                u16::from_be_bytes([*s, *t]),
                u16::from_be_bytes([*u, *v]),
                u16::from_be_bytes([*w, *x]),
            ],
        })
    }

    /// The part that came last.
    pub fn newest(&self) -> Name
        ensures { result ≡ newest self.now }
    {
        Name {
            message: self.message,
            index: self.indexes[0],
        }
    }

    /// Whether it names a part.
    pub fn is_named(&self, name: Name) -> bool
        ensures { result ≡ is_named self.now name }
    {
        self.message == name.message && has_index(&self.indexes, name.index)
    }
}
