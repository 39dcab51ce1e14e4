//! Lists of hosts that are read, and greetings as bytes. What is refused of lists is in checks/hosts. Texts and bytes are written out by
//! hand; the digests are from another program.

use crate::checking::check;
use admission::{BadGreeting, Greeting, Word};
use host_list::{HostList, read};
use nop_types::{Actor, Config};
use std::net::SocketAddr;
use std::process::Abort;

/// As few actors as there may be.
const LEAST: &str = "\
cluster 7
r0 10.0.0.1:41000
s0 10.0.0.1:41008
ctl 10.0.0.1:41012
c0 10.0.0.9:41016
";

/// Blanks and comments, both versions of IP, places of clients with a hole, and no line end at the end.
const FULL: &str = "\
# three hosts

cluster 18446744073709551615
r1 10.0.0.2:41000
r0 10.0.0.1:41000 # the first leader
r2\t[fd00::3]:41000
s0  10.0.0.1:41008
s1 10.0.0.2:41008
ctl 10.0.0.1:41012
ctl1 10.0.0.2:41012
o0 10.0.0.3:41032\r
c0 10.0.0.9:41016
c5 [fe80::9%2]:41021";

/// The same list: other lines, in another order, other spellings of addresses.
const SAME: &str =
    "c5 [fe80:0::9%2]:041021\n\to0 10.0.0.3:41032\nctl1 10.0.0.2:41012\nctl 10.0.0.1:41012\ns1 10.0.0.2:41008
c0 10.0.0.9:41016\nr2 [fd00:0:0:0:0:0:0:3]:41000#r9\n#cluster 9\ns0 10.0.0.1:41008\nr1 10.0.0.2:41000\nr0 10.0.0.1:41000
cluster 18446744073709551615\n";

fn list(rt: &impl Abort, text: &str) -> HostList {
    read(text.as_bytes()).expect(rt, "a list")
}

fn is_list(list: &HostList, cluster: u64, config: Option<Config>, digest: u64) -> bool {
    list.cluster() == cluster && Some(list.config()) == config && list.digest() == digest
}

/// Actors, and their addresses in the full list. A client is at the place of its number. Some are not listed.
static ADDRESSES: [(Actor, Option<&str>); 10] = [
    (Actor::Replica(0), Some("10.0.0.1:41000")),
    (Actor::Replica(2), Some("[fd00::3]:41000")),
    (Actor::Sequencer(1), Some("10.0.0.2:41008")),
    (Actor::Controller(1), Some("10.0.0.2:41012")),
    (Actor::Observer(0), Some("10.0.0.3:41032")),
    (Actor::Client(16), Some("10.0.0.9:41016")),
    (Actor::Client(5), Some("[fe80::9%2]:41021")),
    (Actor::Client(1), None),
    (Actor::Replica(3), None),
    (Actor::Replica(8), None),
];

/// Addresses, and their actors in it.
static ACTORS: [(&str, Option<Actor>); 3] = [
    ("10.0.0.1:41001", None),
    ("10.0.0.2:41008", Some(Actor::Sequencer(1))),
    ("[fe80::9%2]:41021", Some(Actor::Client(5))),
];

fn address(rt: &impl Abort, text: &str) -> SocketAddr {
    SocketAddr::parse_ascii(text.as_bytes()).expect(rt, "an address")
}

fn check_places(rt: &impl Abort, list: &HostList) {
    for (actor, text) in &ADDRESSES {
        let expected = match text {
            Some(text) => Some(address(rt, text)),
            None => None,
        };
        check(rt, list.address_of(*actor) == expected, "an address");
    }
    for (text, actor) in &ACTORS {
        check(rt, list.actor_of(address(rt, text)) == *actor, text);
    }
}

#[test]
fn lists_are_read(rt: HostRuntime) {
    let least = is_list(
        &list(&rt, LEAST),
        7,
        Config::new(1, 1, 1, 1, 0),
        0x71db_e6f2_4c3e_d4d0,
    );
    check(&rt, least, "the least list");
    for text in [FULL, SAME] {
        let list = list(&rt, text);
        let config = Config::new(3, 2, 6, 2, 1);
        let full = is_list(&list, u64::MAX, config, 0x99db_13df_9881_5324);
        check(&rt, full, "the full list");
        check_places(&rt, &list);
    }
}

/// A greeting by hand: the letters N and H, a Claim, a digest, number 261 and a process.
static CLAIM: [u8; 23] = [
    0x4e, 0x48, 2, 1, 2, 3, 4, 5, 6, 7, 8, 0, 0, 1, 5, 0xff, 0xfe, 0xfd, 0xfc, 0xfb, 0xfa, 0xf9, 0,
];

/// The first three bytes in place of those of the claim: the word, or what is refused. The letters come before the word.
static HEADS: [(u8, u8, u8, Result<Word, BadGreeting>); 10] = [
    (0x4e, 0x48, 1, Ok(Word::Ask)),
    (0x4e, 0x48, 2, Ok(Word::Claim)),
    (0x4e, 0x48, 3, Ok(Word::Free)),
    (0x4e, 0x48, 4, Ok(Word::Noted)),
    (0x4e, 0x48, 5, Ok(Word::Taken)),
    (0x4e, 0x48, 6, Ok(Word::Foreign)),
    (0x4e, 0x48, 0, Err(BadGreeting::Word)),
    (0x4e, 0x48, 7, Err(BadGreeting::Word)),
    (0x4e, 0x4f, 7, Err(BadGreeting::Magic)),
    (0x48, 0x48, 7, Err(BadGreeting::Magic)),
];

/// Whether the claim with this head is read so, and written again.
fn is_greeting(head: [u8; 3], expected: Result<Word, BadGreeting>) -> bool {
    let mut bytes = CLAIM;
    let [first, second, third] = head;
    bytes[0] = first;
    bytes[1] = second;
    bytes[2] = third;
    match expected {
        Ok(word) => {
            let greeting = Greeting {
                word,
                digest: 0x0102_0304_0506_0708,
                number: 261,
                process: 0xfffe_fdfc_fbfa_f900,
            };
            Greeting::read(&bytes) == Ok(greeting) && greeting.to_bytes() == bytes
        }
        Err(fault) => Greeting::read(&bytes) == Err(fault),
    }
}

#[test]
fn greetings_as_bytes(rt: HostRuntime) {
    for (first, second, third, expected) in &HEADS {
        let holds = is_greeting([*first, *second, *third], *expected);
        check(&rt, holds, "a greeting or none");
    }
    for bytes in [b"".as_slice(), &CLAIM[..22], &[0u8; 24]] {
        let is_refused = Greeting::read(bytes) == Err(BadGreeting::Length);
        check(&rt, is_refused, "the length");
    }
}
