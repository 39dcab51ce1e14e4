//! Processes that start and ask whether their numbers are free, and what links answer: calls that take times and greetings.

use crate::checking::check;
use admission::{Admission, Greeting, Own, Registry, Standing, Word};
use nop_types::Actor;
use std::alloc::Global;
use std::process::Abort;

/// Three replicas, a sequencer, a controller, an observer and a place of clients.
static NODES: [Actor; 7] = [
    Actor::Replica(0),
    Actor::Replica(1),
    Actor::Replica(2),
    Actor::Sequencer(0),
    Actor::Controller(0),
    Actor::Observer(0),
    Actor::Client(5),
];

/// What happens: a time, and the word that is asked then; or a word from a node. Then how it stands.
enum Row {
    At(u64, Option<Word>, Standing),
    Hears(Actor, Word, Standing),
}

use Row::{At, Hears};

/// Whether what happens goes as the row says.
fn goes(asker: &mut Admission, number: u32, row: &Row) -> bool {
    match row {
        At(now, word, standing) => asker.turn(*now) == *word && asker.standing() == *standing,
        Hears(from, word, standing) => {
            let greeting = Greeting {
                word: *word,
                digest: 77,
                number,
                process: 9,
            };
            asker.hear(*from, greeting);
            asker.standing() == *standing
        }
    }
}

/// A process of this actor asks so many nodes, and goes as the rows say.
fn play(rt: &impl Abort, alloc: Global, actor: Actor, number: u32, others: usize, rows: &[Row]) {
    let own = Own {
        actor,
        digest: 77,
        process: 9,
    };
    let mut asker = Admission::new(alloc, own, &NODES, 1_000_000).expect(rt, "memory");
    check(rt, asker.others().len() == others, "how many others");
    for (row, step) in rows.iter().enumerate() {
        assert!(rt; goes(&mut asker, number, step), "row {row}");
    }
}

/// A client: replicas count. All answer at once, then two of three, after 0.3 s; then it reminds the others, until all have noted it.
static CLIENT: [Row; 27] = [
    At(1_000_000, Some(Word::Ask), Standing::Going),
    At(1_019_999, None, Standing::Going),
    At(1_020_000, Some(Word::Ask), Standing::Going),
    Hears(Actor::Replica(0), Word::Free, Standing::Going),
    Hears(Actor::Sequencer(0), Word::Free, Standing::Going),
    Hears(Actor::Replica(1), Word::Noted, Standing::Going),
    Hears(Actor::Replica(1), Word::Free, Standing::Going),
    At(1_030_000, None, Standing::Going),
    Hears(Actor::Replica(2), Word::Free, Standing::Going),
    At(1_031_000, Some(Word::Claim), Standing::Going),
    Hears(Actor::Replica(0), Word::Free, Standing::Going),
    Hears(Actor::Replica(0), Word::Noted, Standing::Going),
    At(1_331_000, Some(Word::Claim), Standing::Going),
    Hears(Actor::Replica(2), Word::Noted, Standing::Going),
    At(1_330_999, None, Standing::Going),
    At(1_331_001, None, Standing::Admitted),
    // Nothing ends it now.
    Hears(Actor::Replica(1), Word::Taken, Standing::Admitted),
    At(1_831_000, Some(Word::Claim), Standing::Admitted),
    At(2_330_999, None, Standing::Admitted),
    Hears(Actor::Replica(1), Word::Noted, Standing::Admitted),
    Hears(Actor::Sequencer(0), Word::Noted, Standing::Admitted),
    Hears(Actor::Controller(0), Word::Noted, Standing::Admitted),
    At(2_331_000, Some(Word::Claim), Standing::Admitted),
    // A place of clients is not asked.
    Hears(Actor::Client(5), Word::Noted, Standing::Admitted),
    At(2_831_000, Some(Word::Claim), Standing::Admitted),
    Hears(Actor::Observer(0), Word::Noted, Standing::Admitted),
    At(9_000_000, None, Standing::Admitted),
];

/// A replica: two of the four that count are half, which is not enough, however long; an observer doesn't count.
static REPLICA: [Row; 9] = [
    At(1_000_000, Some(Word::Ask), Standing::Going),
    Hears(Actor::Replica(1), Word::Free, Standing::Going),
    Hears(Actor::Controller(0), Word::Free, Standing::Going),
    Hears(Actor::Observer(0), Word::Free, Standing::Going),
    Hears(Actor::Replica(0), Word::Free, Standing::Going),
    At(1_300_000, Some(Word::Ask), Standing::Going),
    At(60_999_999, Some(Word::Ask), Standing::Going),
    At(61_000_000, None, Standing::Late),
    Hears(Actor::Sequencer(0), Word::Free, Standing::Late),
];

/// A refusal ends it, of one that doesn't count too, but not of a place that was not asked.
static REFUSED: [Row; 4] = [
    At(1_000_000, Some(Word::Ask), Standing::Going),
    Hears(Actor::Client(5), Word::Taken, Standing::Going),
    Hears(Actor::Observer(0), Word::Foreign, Standing::Refused),
    At(2_000_000, None, Standing::Refused),
];

/// An answer to another process is none.
static OTHERS: [Row; 1] = [Hears(Actor::Replica(0), Word::Taken, Standing::Going)];

#[test]
fn processes_are_admitted_by_most(rt: HostRuntime) {
    play(&rt, rt.alloc(), Actor::Client(21), 21, 6, &CLIENT);
    play(&rt, rt.alloc(), Actor::Replica(0), 0, 5, &REPLICA);
    play(&rt, rt.alloc(), Actor::Sequencer(0), 0, 5, &REFUSED);
    play(&rt, rt.alloc(), Actor::Sequencer(0), 1, 5, &OTHERS);
}

/// The digest of the list of the link, and of another one.
const DIGEST: u64 = 77;

const OTHER: u64 = 78;

/// A greeting from an address: the actor there, its word, digest, number and process, and the word of the answer.
type Asked = (Actor, Word, u64, u32, u64, Option<Word>);

static ASKED_BY_NODES: [Asked; 16] = [
    (Actor::Replica(1), Word::Ask, DIGEST, 1, 5, Some(Word::Free)),
    (Actor::Replica(1), Word::Ask, DIGEST, 1, 6, Some(Word::Free)),
    (
        Actor::Replica(1),
        Word::Claim,
        DIGEST,
        1,
        6,
        Some(Word::Noted),
    ),
    (
        Actor::Replica(1),
        Word::Claim,
        DIGEST,
        1,
        6,
        Some(Word::Noted),
    ),
    (
        Actor::Replica(1),
        Word::Claim,
        DIGEST,
        1,
        5,
        Some(Word::Taken),
    ),
    (
        Actor::Replica(1),
        Word::Ask,
        DIGEST,
        1,
        5,
        Some(Word::Taken),
    ),
    (Actor::Replica(1), Word::Ask, DIGEST, 1, 6, Some(Word::Free)),
    // Another kind has numbers of its own.
    (
        Actor::Sequencer(1),
        Word::Claim,
        DIGEST,
        1,
        5,
        Some(Word::Noted),
    ),
    (
        Actor::Observer(1),
        Word::Claim,
        DIGEST,
        1,
        7,
        Some(Word::Noted),
    ),
    (
        Actor::Controller(1),
        Word::Ask,
        DIGEST,
        1,
        8,
        Some(Word::Free),
    ),
    // Another list, also where the number is taken.
    (
        Actor::Replica(1),
        Word::Claim,
        OTHER,
        1,
        9,
        Some(Word::Foreign),
    ),
    (
        Actor::Replica(2),
        Word::Ask,
        OTHER,
        2,
        9,
        Some(Word::Foreign),
    ),
    // A number that is not the source's, and what is no question.
    (Actor::Replica(1), Word::Ask, DIGEST, 2, 6, None),
    (Actor::Replica(1), Word::Claim, OTHER, 2, 6, None),
    (Actor::Replica(1), Word::Noted, DIGEST, 1, 6, None),
    (Actor::Replica(2), Word::Taken, OTHER, 2, 6, None),
];

/// Two client numbers are noted at most.
static ASKED_BY_CLIENTS: [Asked; 10] = [
    (
        Actor::Client(5),
        Word::Claim,
        DIGEST,
        5,
        1,
        Some(Word::Noted),
    ),
    (Actor::Client(5), Word::Ask, DIGEST, 21, 2, Some(Word::Free)),
    (Actor::Client(5), Word::Ask, DIGEST, 6, 2, None),
    (
        Actor::Client(5),
        Word::Claim,
        DIGEST,
        261,
        2,
        Some(Word::Noted),
    ),
    (
        Actor::Client(5),
        Word::Ask,
        DIGEST,
        21,
        2,
        Some(Word::Taken),
    ),
    (
        Actor::Client(5),
        Word::Claim,
        DIGEST,
        21,
        2,
        Some(Word::Taken),
    ),
    (
        Actor::Client(5),
        Word::Claim,
        DIGEST,
        261,
        2,
        Some(Word::Noted),
    ),
    (Actor::Client(5), Word::Ask, DIGEST, 5, 2, Some(Word::Taken)),
    (Actor::Client(5), Word::Ask, DIGEST, 5, 1, Some(Word::Free)),
    (
        Actor::Sequencer(0),
        Word::Claim,
        DIGEST,
        0,
        3,
        Some(Word::Noted),
    ),
];

/// The greeting with the word of the answer.
fn answer_of(greeting: Greeting, word: Option<Word>) -> Option<Greeting> {
    match word {
        Some(word) => Some(Greeting { word, ..greeting }),
        None => None,
    }
}

/// Whether the link answers as the row says.
fn answers(rt: &impl Abort, link: &mut Registry, row: &Asked) -> bool {
    let (source, word, digest, number, process, expected) = *row;
    let greeting = Greeting {
        word,
        digest,
        number,
        process,
    };
    let answer = link.answer(source, greeting).expect(rt, "memory");
    answer == answer_of(greeting, expected)
}

/// Whether the claim of a client number is answered by this word.
fn is_answered(rt: &impl Abort, link: &mut Registry, number: u32, word: Word) -> bool {
    let source = Actor::Client(number % 16);
    let row = (source, Word::Claim, DIGEST, number, 9, Some(word));
    answers(rt, link, &row)
}

#[test]
fn links_answer(rt: HostRuntime) {
    let mut link = Registry::new(rt.alloc(), DIGEST, 2);
    for rows in [ASKED_BY_NODES.as_slice(), ASKED_BY_CLIENTS.as_slice()] {
        for row in rows {
            check(&rt, answers(&rt, &mut link, row), "its answer");
        }
    }
    // Client numbers are bounded.
    let mut link = Registry::new(rt.alloc(), DIGEST, 256);
    for number in 0..257u32 {
        let word = if number < 256 {
            Word::Noted
        } else {
            Word::Taken
        };
        check(&rt, is_answered(&rt, &mut link, number, word), "a client");
    }
}
