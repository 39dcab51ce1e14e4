//! What the definitions of spelling and reading say together.

ghost use Rattle.std.specs.Prelude.{◌≡◌, ◌≤◌, Ok, List, ℕ, length};
ghost use Rattle.nop_types.specs.Ranges.{PeerFits};
ghost use Rattle.nop_types.specs.declared.peer.Peer.{Peer};
ghost use Rattle.oum_codec.specs.Numbers.{IsBytes};
ghost use Rattle.peer_codec.specs.Spelling.{Spells, spelling};
ghost use Rattle.peer_codec.specs.Reading.{reading};

/// What was spelled is read.
#[tactic(auto, using(crate::proofs::Peers::reads_again))]
pub fn spelled_is_read()
    ensures { (p : Peer) → PeerFits p → reading (spelling p) ≡ Ok p }
{}

/// What is read from bytes is spelled so.
pub fn read_is_spelled()
    ensures { (bytes : List ℕ) (p : Peer) → IsBytes bytes → reading bytes ≡ Ok p →
        Spells p bytes }
{}

/// Different values have different spellings.
#[tactic(auto, using(crate::proofs::Peers::spelling_is_injective))]
pub fn spelling_is_injective()
    ensures { (p q : Peer) → PeerFits p → PeerFits q → spelling p ≡ spelling q → p ≡ q }
{}

/// No message has more bytes.
#[tactic(auto, using(crate::proofs::Longest::spelling_most))]
pub fn spelling_is_limited()
    ensures { (p : Peer) → PeerFits p → length (spelling p) ≤ 4633074 }
{}
