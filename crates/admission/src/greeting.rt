//! Greetings between processes and links: their words, their one spelling, and its reading.
ghost use Rattle.std.specs.Prelude.{◌≡◌};
ghost use Rattle.admission.specs.Greetings.{reading, spelling, word_named, word_number};

use nop_types::kinds::FIRST_MAGIC;

/// The second byte of a greeting, the letter H.
pub const HELLO_MAGIC: u8 = 0x48;

/// How many bytes a greeting has.
pub const GREETING_BYTES: usize = 23;

// A number that both code and definitions name would be proved whatever it was; so here each stands once more.
const _: () = prove!(HELLO_MAGIC == 0x48 && GREETING_BYTES == 23);

/// What a greeting says.
#[derive(Clone, Copy, PartialEq, Eq)]
pub enum Word {
    /// Was this number another process's?
    Ask,
    /// From now on this number is this process's.
    Claim,
    /// To an Ask: not as far as this link was told.
    Free,
    /// To a Claim: it is noted.
    Noted,
    /// To either: it was, or there is no room.
    Taken,
    /// To either: the list of hosts is another.
    Foreign,
}

/// A question of a process that starts, or the answer to one, which has its digest, number and process.
#[derive(Clone, Copy, PartialEq, Eq)]
pub struct Greeting {
    pub word: Word,
    /// The digest of the list of hosts.
    pub digest: u64,
    /// The number of the actor; which kind it is of, its address says.
    pub number: u32,
    /// A number that the process drew when it started.
    pub process: u64,
}

/// The first test that bytes fail which spell no greeting.
#[derive(Clone, Copy, PartialEq, Eq)]
pub enum BadGreeting {
    /// There are not 23 of them.
    Length,
    /// They don't begin with the letters N and H.
    Magic,
    /// The third one is no word.
    Word,
}

fn word_number(word: Word) -> u8
    ensures { result ≡ word_number word }
{
    match word {
        Word::Ask => 1,
        Word::Claim => 2,
        Word::Free => 3,
        Word::Noted => 4,
        Word::Taken => 5,
        Word::Foreign => 6,
    }
}

fn word_named(number: u8) -> Result<Word, BadGreeting>
    ensures { result ≡ word_named number }
{
    match number {
        1 => Ok(Word::Ask),
        2 => Ok(Word::Claim),
        3 => Ok(Word::Free),
        4 => Ok(Word::Noted),
        5 => Ok(Word::Taken),
        6 => Ok(Word::Foreign),
        _ => Err(BadGreeting::Word),
    }
}

impl Greeting {
    /// Its one spelling.
    #[tactic(auto, unfolding(crate::specs::Greetings::spelling))]
    pub fn to_bytes(self) -> [u8; GREETING_BYTES]
        ensures { result ≡ spelling self }
    {
        let [a, b, c, d, e, f, g, h] = self.digest.to_be_bytes();
        let [i, j, k, l] = self.number.to_be_bytes();
        let [m, n, o, p, q, r, s, t] = self.process.to_be_bytes();
        [
            FIRST_MAGIC,
            HELLO_MAGIC,
            word_number(self.word),
            a,
            b,
            c,
            d,
            e,
            f,
            g,
            h,
            i,
            j,
            k,
            l,
            m,
            n,
            o,
            p,
            q,
            r,
            s,
            t,
        ]
    }

    /// The greeting that the bytes spell, or the first test that they fail.
    #[tactic(auto, unfolding(crate::specs::Greetings::reading))]
    pub fn read(bytes: &[u8]) -> Result<Greeting, BadGreeting>
        ensures { result ≡ reading bytes.now }
    {
        let [
            first,
            second,
            word,
            a,
            b,
            c,
            d,
            e,
            f,
            g,
            h,
            i,
            j,
            k,
            l,
            m,
            n,
            o,
            p,
            q,
            r,
            s,
            t,
        ] = bytes
        else {
            return Err(BadGreeting::Length);
        };
        if *first != FIRST_MAGIC || *second != HELLO_MAGIC {
            return Err(BadGreeting::Magic);
        }
        Ok(Greeting {
            word: word_named(*word)?,
            digest: u64::from_be_bytes([*a, *b, *c, *d, *e, *f, *g, *h]),
            number: u32::from_be_bytes([*i, *j, *k, *l]),
            process: u64::from_be_bytes([*m, *n, *o, *p, *q, *r, *s, *t]),
        })
    }
}
