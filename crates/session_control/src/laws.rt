ghost use Rattle.std.specs.Prelude.{◌≡◌, ◌≢◌, ◌<◌, ◌≤◌, ◌+◌, ◌^◌, ◌%◌, ◌++◌, ◌∷◌, [], List, ℕ, Some, Ok, IsTrue, false, slice_get};
ghost use Rattle.nop_types.specs.Given.{Given, Ticked, Submit, Read};
ghost use Rattle.nop_types.specs.declared.input.Tick.{Tick};
ghost use Rattle.nop_types.specs.Lists.{Has};
ghost use Rattle.nop_types.specs.Configuration.{Configuration, is_configuration};
ghost use Rattle.nop_types.specs.Sessions.{epoch, count, home, opening_session};
ghost use Rattle.nop_types.specs.declared.limits.TheConstants.{MAX_CONTROLLERS, EPOCH_STEP};
ghost use Rattle.nop_types.specs.declared.output.Out.TheVariants.{Send};
ghost use Rattle.nop_types.specs.declared.output.Dest.{Dest};
ghost use Rattle.nop_types.specs.declared.output.Dest.TheVariants.{One};
ghost use Rattle.nop_types.specs.declared.output.Actor.TheVariants.{Sequencer};
ghost use Rattle.nop_types.specs.declared.datagram.Datagram.TheVariants.{Install};
ghost use Rattle.oum_codec.specs.Reading.{reading};
ghost use Rattle.session_control.specs.declared.state.ControllerState.{ControllerState};
ghost use Rattle.session_control.specs.ControllerSteps.{opening, epoch_above, next_session, move_to, last_number, next};
ghost use Rattle.session_control.specs.Ignoring.{is_tick_for, IsIgnored, IgnoresPacket};
ghost use Rattle.session_control.specs.Moves.{Move, after, moves, last_move, AreRising};

/// The epoch that a controller goes on to is above the one that it saw, its own, and the least such.
#[tactic(auto, using(crate::proofs::Epochs::above, crate::proofs::Epochs::own, crate::proofs::Epochs::least))]
pub fn fresh_epoch_is_least()
    ensures above { (e j : ℕ) → e < epoch_above e j }
    ensures own { (e j : ℕ) → j < EPOCH_STEP → epoch_above e j % EPOCH_STEP ≡ j }
    ensures least { (e j d : ℕ) → j < EPOCH_STEP → e < d → d % EPOCH_STEP ≡ j
        → epoch_above e j ≤ d }
{}

/// A controller opens with a session of its own. Each next session is its own too, greater than its last one and than each that it
/// saw, and fits 64 bits.
pub fn sessions_go_on()
    ensures opens { (j : ℕ) → j < MAX_CONTROLLERS → home (opening_session j) ≡ j }
    ensures own { (j session seen next : ℕ) → j < MAX_CONTROLLERS → home session ≡ j →
        next_session j session seen ≡ Some next → home next ≡ j }
    ensures rises { (j session seen next : ℕ) → next_session j session seen ≡ Some next →
        (session < next) × (seen < next) }
    ensures fits { (j session seen next : ℕ) → session < 2 ^ 64 →
        next_session j session seen ≡ Some next → next < 2 ^ 64 }
{}

/// Whatever the inputs, each move has a greater session than the one before it. So no session is that of two moves.
pub fn moves_rise()
    ensures rising { (s : ControllerState) (inputs : List Given)
        → AreRising s.session (moves s inputs) }
    ensures once { (s : ControllerState) (inputs : List Given) (i j : ℕ) (a b : Move) →
        slice_get (moves s inputs) i ≡ Some a → slice_get (moves s inputs) j ≡ Some b →
        a.session ≡ b.session → i ≡ j }
{}

/// Of any two controllers, each with inputs of its own, no move of the one has the session of a move of the other. So each session
/// that controllers give out is for one sequencer; and none is session 1, which sequencer 0 opens with.
pub fn moves_are_distinct()
    ensures apart { (c d : Configuration) (i j : ℕ) (xs ys : List Given) (a b : Move) →
        i < MAX_CONTROLLERS → j < MAX_CONTROLLERS → i ≢ j → Has (moves (opening c i) xs) a →
        Has (moves (opening d j) ys) b → a.session ≢ b.session }
    ensures one_sequencer { (c : Configuration) (i : ℕ) (xs : List Given) (a b : Move) →
        Has (moves (opening c i) xs) a → Has (moves (opening c i) xs) b →
        a.session ≡ b.session → a.sequencer ≡ b.sequencer }
    ensures later { (c : Configuration) (i : ℕ) (xs : List Given) (a : Move) →
        Has (moves (opening c i) xs) a → 1 < a.session }
{}

/// Whatever the inputs, each Install that a controller sends has its number, and goes to the sequencer of its last move, with the
/// session of that move. Where it did not move yet, these are sequencer 0 and its first session.
pub fn installs_are_of_last_move()
    ensures { (config : Configuration) (number : ℕ) (inputs : List Given) (input : Given)
        (dest : Dest) (bytes : List ℕ) (k j x : ℕ) →
        IsTrue (is_configuration config) → number < MAX_CONTROLLERS →
        Has (next (after (opening config number) inputs) input).1 (Send dest bytes) →
        reading bytes ≡ Ok (Install k j x) →
        (k ≡ number) × (dest ≡ One (Sequencer j))
        × (record { sequencer = j; session = x }
        ≡ last_move (opening config number) (inputs ++ input ∷ [])) }
{}

/// What is not for the controller changes nothing and sends nothing: bytes that spell no datagram, a datagram for others or of an
/// earlier probe or session, a tick that is for others or orders a move to no sequencer, an op and a read.
pub fn ignores_what_is_for_others()
    ensures packets { (s : ControllerState) (bytes : List ℕ) → IgnoresPacket s bytes }
    ensures ticks { (s : ControllerState) (tick : Tick) → is_tick_for s tick ≡ false →
        IsIgnored s (Ticked tick) }
    ensures ops { (s : ControllerState) (op : List ℕ) → IsIgnored s (Submit op) }
    ensures reads { (s : ControllerState) (observer : ℕ) (key : List ℕ) →
        IsIgnored s (Read observer key) }
{}

/// Where the next epoch would not fit 32 bits, no move is made: be it the next one above a session that was seen, or above the last
/// count of the controller's own.
pub fn sessions_end()
    ensures seen { (s : ControllerState) (j : ℕ) → s.session < s.seen →
        2 ^ 32 ≤ epoch_above (epoch s.seen) s.number → move_to s j ≡ (s, []) }
    ensures own { (s : ControllerState) (j : ℕ) → s.seen ≤ s.session →
        count s.session ≡ last_number → 2 ^ 32 ≤ epoch s.session + EPOCH_STEP →
        move_to s j ≡ (s, []) }
{}
