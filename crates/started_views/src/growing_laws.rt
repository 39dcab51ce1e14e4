ghost use Rattle.std.specs.Prelude.{◌≤◌, ℕ, List};
ghost use Rattle.nop_types.specs.declared.view.View.{View};
ghost use Rattle.nop_types.specs.declared.request.Entry.{Entry};
ghost use Rattle.nop_types.specs.Lists.{IsPrefixOf};
ghost use Rattle.started_views.specs.Past.{Past, Standing, LeaderHad, IsStarted, note};
ghost use Rattle.started_views.specs.Settled.{Fixed, Anchored};
ghost use Rattle.started_views.specs.Growing.{Grows, GoesOn};

/// A past goes on by nothing, by one way after the other, and by a step of a replica that enters
/// and starts only new views and whose log goes on.
pub fn pasts_grow()
    ensures nothing { (f : ℕ) (past : Past) → Grows f past past }
    ensures ways { (f : ℕ) (a b c : Past) → Grows f a b → Grows f b c → Grows f a c }
    ensures step { (f r : ℕ) (past : Past) (old new : Standing) → GoesOn f past r old new
        → Grows f past (note f past r old new) }
{}

/// What is fixed in a started view stays fixed while the past goes on, and what is anchored stays
/// anchored.
pub fn fixed_prefixes_stay()
    ensures fixed { (f : ℕ) (past later : Past) (w : View) (m : List Entry) (s : ℕ)
        → Grows f past later → IsStarted past w → Fixed f past w m s
        → (n : List Entry) × IsPrefixOf m n × Fixed f later w n s }
    ensures anchored { (f : ℕ) (past later : Past) (u : View) (s : ℕ) → Grows f past later
        → ((w : View) (m : List Entry) → LeaderHad f past w m → IsStarted past w)
        → Anchored f past u s → Anchored f later u s }
    ensures fewer { (f : ℕ) (past : Past) (w : View) (m : List Entry) (s t : ℕ) → t ≤ s
        → Fixed f past w m s → Fixed f past w m t }
{}
