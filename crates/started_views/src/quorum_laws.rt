ghost use Rattle.std.specs.Prelude.{ℕ, ◌+◌, ◌*◌, ◌<◌, List};
ghost use Rattle.nop_types.specs.declared.view.View.{View};
ghost use Rattle.nop_types.specs.Lists.{Has};
ghost use Rattle.nop_types.specs.Views.{leader_of};
ghost use Rattle.started_views.specs.Quorums.{Quorum, Others};

/// Of 2 f + 1 replicas, two sets that each have f + 1 share one.
pub fn quorums_share()
    ensures { (f : ℕ) (a b : List ℕ) → Quorum f (Has a) → Quorum f (Has b)
        → (r : ℕ) × (r < 2 * f + 1) × Has a r × Has b r }
{}

/// What holds wherever something holds of a quorum, holds of a quorum.
pub fn quorum_of_more()
    ensures { (f : ℕ) (a b : List ℕ) → ((r : ℕ) → Has a r → Has b r) →
        Quorum f (Has a)
        → Quorum f (Has b) }
{}

/// The leader of a view and f others are a quorum.
pub fn others_and_leader()
    ensures { (f : ℕ) (w : View) (a : List ℕ) → Has a (leader_of w (2 * f + 1))
        → Others f (leader_of w (2 * f + 1)) (Has a) → Quorum f (Has a) }
{}
