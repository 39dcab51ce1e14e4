//! What the definitions of spelling and reading say together.

ghost use Rattle.std.specs.Prelude.{◌≡◌, ◌<◌, ◌^◌, ◌↔◌, Ok, List, slice_get, ℕ};
ghost use Rattle.std.specs.Int.{w16, w32, w64};
ghost use Rattle.nop_types.specs.Parts.{IsPart};
ghost use Rattle.nop_types.specs.Ranges.{DatagramFits, RequestFits};
ghost use Rattle.nop_types.specs.declared.kinds.TheConstants.{KIND_PLACE};
ghost use Rattle.nop_types.specs.declared.view.View.{View};
ghost use Rattle.nop_types.specs.declared.request.Request.{Request};
ghost use Rattle.nop_types.specs.declared.datagram.Datagram.{Datagram};
ghost use Rattle.oum_codec.specs.Kinds.{IsOfKind};
ghost use Rattle.oum_codec.specs.Numbers.{IsBytes, be_bytes};
ghost use Rattle.oum_codec.specs.Places.{StandsAt, ViewWidths, number_in, view_in, request_in};
ghost use Rattle.oum_codec.specs.Spelling.{IsPartOfSeveral, Spells, request_bytes, spelling, view_bytes};
ghost use Rattle.oum_codec.specs.Reading.{reading};

/// What was spelled is read.
#[tactic(auto, using(crate::proofs::Datagrams::reads_again))]
pub fn spelled_is_read()
    ensures { (d : Datagram) → DatagramFits d → reading (spelling d) ≡ Ok d }
{}

/// What is read from bytes is spelled so.
pub fn read_is_spelled()
    ensures { (bytes : List ℕ) (d : Datagram) → IsBytes bytes → reading bytes ≡ Ok d
        → Spells d bytes }
{}

/// Different values have different spellings.
#[tactic(auto, using(crate::proofs::Datagrams::spelling_is_injective))]
pub fn spelling_is_injective()
    ensures { (c d : Datagram) → DatagramFits c → DatagramFits d → spelling c
        ≡ spelling d → c ≡ d }
{}

/// By the bytes at `KIND_PLACE` and `COUNT_PLACE` one tells the fragments of messages that have several.
#[tactic(auto, using(crate::proofs::PartBytes::parts_are_told))]
pub fn parts_are_told()
    ensures { (d : Datagram) → DatagramFits d → IsPart (spelling d) ↔ IsPartOfSeveral d }
{}

/// What is read from bytes is of the kind at `KIND_PLACE`, in whatever ranges.
#[tactic(auto, using(crate::proofs::KindBytes::kinds_are_told))]
pub fn kinds_are_told()
    ensures { (bytes : List ℕ) → IsOfKind (slice_get bytes KIND_PLACE) (reading bytes) }
{}

/// A field that stands at a place, in its range, is read there.
pub fn fields_are_read()
    ensures two { (at n : ℕ) (bytes : List ℕ)
        → n < 2 ^ 16 → StandsAt at (be_bytes w16 n) bytes → number_in w16 at bytes ≡ Some n }
    ensures four { (at n : ℕ) (bytes : List ℕ)
        → n < 2 ^ 32 → StandsAt at (be_bytes w32 n) bytes → number_in w32 at bytes ≡ Some n }
    ensures eight { (at n : ℕ) (bytes : List ℕ)
        → n < 2 ^ 64 → StandsAt at (be_bytes w64 n) bytes → number_in w64 at bytes ≡ Some n }
    ensures view { (at : ℕ) (v : View) (bytes : List ℕ)
        → ViewWidths v → StandsAt at (view_bytes v) bytes → view_in at bytes ≡ Some v }
    ensures request { (at : ℕ) (r : Request) (bytes : List ℕ)
        → RequestFits r → StandsAt at (request_bytes r) bytes → request_in at bytes ≡ Some r }
{}

/// A field that is read from bytes is in its range, and stands at its place.
pub fn read_fields_stand()
    ensures two { (at n : ℕ) (bytes : List ℕ) → IsBytes bytes →
        number_in w16 at bytes ≡ Some n
        → (n < 2 ^ 16) × StandsAt at (be_bytes w16 n) bytes }
    ensures four { (at n : ℕ) (bytes : List ℕ) → IsBytes bytes →
        number_in w32 at bytes ≡ Some n
        → (n < 2 ^ 32) × StandsAt at (be_bytes w32 n) bytes }
    ensures eight { (at n : ℕ) (bytes : List ℕ) → IsBytes bytes →
        number_in w64 at bytes ≡ Some n
        → (n < 2 ^ 64) × StandsAt at (be_bytes w64 n) bytes }
    ensures view { (at : ℕ) (v : View) (bytes : List ℕ) → IsBytes bytes →
        view_in at bytes ≡ Some v
        → ViewWidths v × StandsAt at (view_bytes v) bytes }
    ensures request { (at : ℕ) (r : Request) (bytes : List ℕ) → IsBytes bytes
        → request_in at bytes ≡ Some r
        → RequestFits r × StandsAt at (request_bytes r) bytes }
{}
