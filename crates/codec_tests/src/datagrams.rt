//! Datagrams: bytes and what they spell, which `peers` tries.
ghost use Rattle.nop_types.specs.Ranges.{DatagramFits};

use crate::rows::{bytes_of, check, check_text, text};
use nop_types::Datagram;
use oum_codec::{decode, encode, read_request, read_u16, read_u32, read_u64, read_view};
use std::alloc::Global;
use std::process::Abort;

/// The examples of the formats: bytes, and the value that they spell.
pub const EXAMPLES: &str = "\
4e4f0301 00000000 0000000000000001 0007 5000016b000176 = Request(Request { client: 0, id: 1, op: Op { bytes: [80, 0, 1, 107, 0, 1, 118] } })
4e4f0302 0000000000000001 0000000000000001 00000000 0000000000000001 0007 5000016b000176 = Stamped(Stamped { session: 1, number: 1, request: Request { client: 0, id: 1, op: Op { bytes: [80, 0, 1, 107, 0, 1, 118] } } })
4e4f0303 00 00000000 0000000000000001 00000001 00000000 0000000000000001 01 0004 6e6f6e65 = Reply(Reply { replica: 0, view: View { leader: 0, session: 1 }, slot: 1, client: 0, id: 1, tag: 1, result: Bytes { bytes: [110, 111, 110, 101] } })
4e4f0303 01 00000000 0000000000000001 00000001 00000000 0000000000000001 00 0000 = Reply(Reply { replica: 1, view: View { leader: 0, session: 1 }, slot: 1, client: 0, id: 1, tag: 0, result: Bytes { bytes: [] } })
4e4f0304 00 01 0000000000000002 = Install { controller: 0, sequencer: 1, session: 2 }
4e4f0305 01 02 0000000100000001 = Installed { controller: 1, sequencer: 2, session: 4294967297 }
4e4f0306 00 02 00000001 = Ping { controller: 0, sequencer: 2, round: 1 }
4e4f0307 02 00 00000001 = Pong { controller: 2, sequencer: 0, round: 1 }
4e4f0308 01 0000000000000001 0000 0001 100100000000000000000000000100000001 = Fragment(Fragment { replica: 1, message: 1, index: 0, count: 1, payload: Bytes { bytes: [16, 1, 0, 0, 0, 0, 0, 0, 0, 0, 0, 0, 0, 1, 0, 0, 0, 1] } })
4e4f0302 0000000000000002 0000000000000002 00000000 0000000000000001 0007 5000016b000176 = Stamped(Stamped { session: 2, number: 2, request: Request { client: 0, id: 1, op: Op { bytes: [80, 0, 1, 107, 0, 1, 118] } } })
4e4f0309 00000000 0000000000000001 0001 6b = Read(Read { client: 0, id: 1, key: Key { bytes: [107] } })
4e4f030a 00 00000000 00000000 0000000000000001 0004 6e6f6e65 = Answer(Answer { observer: 0, position: 0, client: 0, id: 1, result: Bytes { bytes: [110, 111, 110, 101] } })
4e4f030a 03 00000102 00000007 ffffffffffffffff 0002 3d76 = Answer(Answer { observer: 3, position: 258, client: 7, id: 18446744073709551615, result: Bytes { bytes: [61, 118] } })";

/// Each field at its least, then at its greatest.
pub const LIMITS: &str = "\
4e4f0301 00000000 0000000000000001 0000 = Request(Request { client: 0, id: 1, op: Op { bytes: [] } })
4e4f0301 ffffffff ffffffffffffffff 0280 ff*640 = Request(Request { client: 4294967295, id: 18446744073709551615, op: Op { bytes: [255, 255..
4e4f0302 0000000000000001 0000000000000001 00000000 0000000000000001 0000 = Stamped(Stamped { session: 1, number: 1, request: Request { client: 0, id: 1, op: Op { bytes: [] } } })
4e4f0302 ffffffffffffffff 0000ffffffffffff ffffffff ffffffffffffffff 0280 ff*640 = Stamped(Stamped { session: 18446744073709551615, number: 281474976710655, request: Request { client: 4294967295, id: 18446744073709551615, op: Op { bytes: [255, 255..
4e4f0303 06 ffffffff ffffffffffffffff ffffffff ffffffff ffffffffffffffff 01 0101 ff*257 = Reply(Reply { replica: 6, view: View { leader: 4294967295, session: 18446744073709551615 }, slot: 4294967295, client: 4294967295, id: 18446744073709551615, tag: 1, result: Bytes { bytes: [255, 255..
4e4f0304 00 00 0000000000000001 = Install { controller: 0, sequencer: 0, session: 1 }
4e4f0304 03 03 ffffffffffffffff = Install { controller: 3, sequencer: 3, session: 18446744073709551615 }
4e4f0305 00 00 0000000000000001 = Installed { controller: 0, sequencer: 0, session: 1 }
4e4f0305 03 03 ffffffffffffffff = Installed { controller: 3, sequencer: 3, session: 18446744073709551615 }
4e4f0306 00 00 00000001 = Ping { controller: 0, sequencer: 0, round: 1 }
4e4f0306 03 03 ffffffff = Ping { controller: 3, sequencer: 3, round: 4294967295 }
4e4f0307 00 00 00000001 = Pong { controller: 0, sequencer: 0, round: 1 }
4e4f0307 03 03 ffffffff = Pong { controller: 3, sequencer: 3, round: 4294967295 }
4e4f0308 00 0000000000000001 0000 0001 00 = Fragment(Fragment { replica: 0, message: 1, index: 0, count: 1, payload: Bytes { bytes: [0] } })
4e4f0308 06 ffffffffffffffff 0fff 1000 ff*1400 = Fragment(Fragment { replica: 6, message: 18446744073709551615, index: 4095, count: 4096, payload: Bytes { bytes: [255, 255..
4e4f0309 00000000 0000000000000001 0001 00 = Read(Read { client: 0, id: 1, key: Key { bytes: [0] } })
4e4f0309 ffffffff ffffffffffffffff 0040 ff*64 = Read(Read { client: 4294967295, id: 18446744073709551615, key: Key { bytes: [255, 255..
4e4f030a 00 00000000 00000000 0000000000000001 0000 = Answer(Answer { observer: 0, position: 0, client: 0, id: 1, result: Bytes { bytes: [] } })
4e4f030a 03 ffffffff ffffffff ffffffffffffffff 0101 ff*257 = Answer(Answer { observer: 3, position: 4294967295, client: 4294967295, id: 18446744073709551615, result: Bytes { bytes: [255, 255..";

/// Bytes, and the first test that they fail. Among them are two versions before this one and one
/// after it, a controller and a sequencer out of range, an op of 641 bytes, a message number of
/// 2^48, a sequencer out of range with a byte of the round missing, a payload that is not the last
/// and is not full, one too many, none, and an index at the count. Then there are a stamped op of
/// 641 bytes, an op of 640 with a byte behind it, a result of 258 bytes, a slot of 0, and 4,097
/// fragments. The last ones are reads (an id of 0, an empty key, one of 65 bytes, half a length,
/// half a key, a byte behind it) and answers (an observer and an id out of range, a result of 258
/// bytes, an observer out of range with half a length, half a result, a byte behind it).
pub const REFUSALS: &str = "\
4e4f03 = Short
4e4e0101 = Magic
4e4f0101 = Version
4e4f0201 = Version
4e4f0401 = Version
4e4f0301 = Short
4e4f0300 = Kind
4e4f030b = Kind
4e4f0309 = Short
4e4f030a = Short
4e4f0304 00 00 0000000000000000 = Field
4e4f0304 04 00 0000000000000001 = Field
4e4f0305 00 04 0000000000000001 = Field
4e4f0306 04 00 00000001 = Field
4e4f0307 00 04 00000001 = Field
4e4f0307 00 00 00000000 = Field
4e4f0303 01 00000000 0000000000000001 00000001 00000000 0000000000000001 00 0000 00 = Trailing
4e4f0303 01 00000000 0000000000000001 00000001 00000000 0000000000000001 00 0001 00 = Field
4e4f0304 00 00 00000000000002 = Short
4e4f0304 00 00 0000000000000002 00 = Trailing
4e4f0306 00 00 00000001 00 = Trailing
4e4f0301 00000000 0000000000000001 0281 ff*641 = Field
4e4f0302 0000000000000001 0001000000000000 00000000 0000000000000001 0000 = Field
4e4f0306 00 04 000000 = Short
4e4f0301 00000000 0000000000000001 0002 6b = Short
4e4f0308 00 0000000000000001 0000 0002 ff*1399 = Short
4e4f0308 00 0000000000000001 0000 0002 ff*1401 = Trailing
4e4f0308 00 0000000000000001 0000 0001 = Short
4e4f0308 00 0000000000000001 0001 0001 00 = Field
4e4f0302 0000000000000001 0000000000000001 00000000 0000000000000001 0281 ff*641 = Field
4e4f0301 00000000 0000000000000001 0280 ff*641 = Trailing
4e4f0303 00 00000000 0000000000000001 00000001 00000000 0000000000000001 01 0102 ff*258 = Field
4e4f0303 01 00000000 0000000000000001 00000000 00000000 0000000000000001 00 0000 = Field
4e4f0308 00 0000000000000001 0000 1001 ff*1400 = Field
4e4f0309 00000000 0000000000000000 0001 6b = Field
4e4f0309 00000000 0000000000000001 0000 = Field
4e4f0309 00000000 0000000000000001 0041 ff*65 = Field
4e4f0309 00000000 0000000000000001 00 = Short
4e4f0309 00000000 0000000000000001 0002 6b = Short
4e4f0309 00000000 0000000000000001 0001 6b 00 = Trailing
4e4f030a 04 00000000 00000000 0000000000000001 0000 = Field
4e4f030a 00 00000000 00000000 0000000000000000 0000 = Field
4e4f030a 00 00000000 00000000 0000000000000001 0102 ff*258 = Field
4e4f030a 04 00000000 00000000 0000000000000001 00 = Short
4e4f030a 00 00000000 00000000 0000000000000001 0002 3d = Short
4e4f030a 00 00000000 00000000 0000000000000001 0004 6e6f6e65 00 = Trailing";

/// Whether a datagram is written as these bytes.
fn is_spelled(rt: &impl Abort, alloc: Global, datagram: &Datagram, bytes: &[u8]) -> bool
    requires { DatagramFits datagram.now }
{
    let mut to = Vec::new(alloc);
    encode(alloc, datagram, &mut to).expect(rt, "memory");
    to.as_slice() == bytes
}

/// What the bytes spell, or the test that they fail. What is spelled is written as the same bytes.
pub fn shown(rt: &impl Abort, alloc: Global, bytes: &[u8]) -> String {
    match decode(alloc, bytes) {
        Err(bad) => text(rt, alloc, &bad),
        Ok(datagram) => {
            check(rt, is_spelled(rt, alloc, &datagram, bytes), "spelled");
            text(rt, alloc, &datagram)
        }
    }
}

const REQUEST: &str = "4e4f0301 00000002 0000000000000001 0002 6b30";

#[test]
fn fields(rt: HostRuntime) {
    let alloc = rt.alloc();
    let bytes = bytes_of(&rt, alloc, REQUEST);
    let are_numbers = read_u16(&bytes, 16) == Some(2)
        && read_u32(&bytes, 0) == Some(0x4e4f_0301)
        && read_u64(&bytes, 8) == Some(1)
        && read_u64(&bytes, 13) == None;
    check(&rt, are_numbers, "numbers");
    let view = "Some(View { leader: 1313800961, session: 8589934592 })";
    check_text(&rt, &text(&rt, alloc, &read_view(&bytes, 0)), view);
    check_text(&rt, &text(&rt, alloc, &read_view(&bytes, 9)), "None");
    let request = read_request(alloc, &bytes, 4).expect(&rt, "memory");
    let expected = "Some(Request { client: 2, id: 1, op: Op { bytes: [107, 48] } })";
    check_text(&rt, &text(&rt, alloc, &request), expected);
}
