ghost use Rattle.std.specs.Prelude.{◌≤◌, ℕ};
ghost use Rattle.nop_types.specs.Given.{Given};
ghost use Rattle.nop_types.specs.Logs.{Keeping};
ghost use Rattle.nop_types.specs.Meaning.{Meaning};
ghost use Rattle.nop_types.specs.declared.peer.Peer.{Peer};
ghost use Rattle.observer.specs.Observing.{Observing, position, told};
ghost use Rattle.observer.specs.ObserverSteps.{Observer, next};

/// No position falls, whatever comes, forged messages too; over both kinds of logs.
pub fn positions_rise<S>()
    ensures { (m : Meaning S) (k : Keeping) (n : ℕ) (s : Observing) (p : Peer)
        → position s ≤ position (told m k n s p) }
{}

/// No position falls by a step, whatever is heard, forged datagrams too.
pub fn positions_never_fall<S>()
    ensures { (m : Meaning S) (s : Observer) (came : Given)
        → position s.heard.state ≤ position (next m s came).0.heard.state }
{}
