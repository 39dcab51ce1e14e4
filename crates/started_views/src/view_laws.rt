ghost use Rattle.std.specs.Prelude.{◌≡◌, ◌+◌, ◌<◌, ◌↔◌, false, IsTrue};
ghost use Rattle.nop_types.specs.declared.view.View.{View};
ghost use Rattle.nop_types.specs.Views.{AtMost, Below, Comparable, outranks, is_view};

/// The order of views by parts.
#[tactic(auto, using(lemmas::proofs::Views::order_of_views))]
pub fn views_are_ordered()
    ensures same { (a : View) → AtMost a a }
    ensures steps { (a b c : View) → AtMost a b → AtMost b c → AtMost a c }
    ensures both { (a b : View) → AtMost a b → AtMost b a → a ≡ b }
    ensures below { (a b c : View) → Below a b → Below b c → Below a c }
    ensures falls { (a b : View) → Below a b → a.leader + a.session < b.leader + b.session }
{}

/// Rank tells views apart, no view outranks one that it is at most, and of two comparable views the
/// one that does not outrank the other is at most it.
#[tactic(auto, using(lemmas::proofs::Views::rank_of_views))]
pub fn ranks_follow_order()
    ensures decides { (a b : View) → outranks a b ≡ false → outranks b a
        ≡ false → a ≡ b }
    ensures at_most { (a b : View) → AtMost a b → outranks a b ≡ false }
    ensures comparable { (a b : View) → Comparable a b → outranks a b ≡ false → AtMost a b }
{}
