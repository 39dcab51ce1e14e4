//! What the definitions say together.

ghost use Rattle.std.specs.Prelude.{◌≡◌, List, codes, cond, is_some, ℕ};
ghost use Rattle.std.specs.FinMap as finite;
ghost use Rattle.kv_host.specs.Kv.{answer_to, is_refused};
ghost use Rattle.kv_host.specs.Op.{Delete, Get, Put, Swap};
ghost use Rattle.kv_host.specs.Values.{Kv, has_value};
ghost use Rattle.resp.specs.Replies.{simple};
ghost use Rattle.kv_resp.specs.Laws.{IsSpelled, flag, full, value_reply};
ghost use Rattle.kv_resp.specs.Results.{reply_to};
ghost use Rattle.kv_resp.specs.Table.{asked};

use crate::demand::Form;

/// What is replied to a get: the value of the key, or whether it has one.
#[tactic(auto, using(crate::specs::Laws::get_replied, crate::specs::Laws::exists_replied))]
pub fn gets_say_what_the_map_has()
    ensures value { (kv : Kv) (key : List ℕ)
        → reply_to Form.Value (answer_to kv (Get key)) ≡ value_reply (finite.get kv key) }
    ensures presence { (kv : Kv) (key : List ℕ)
        → reply_to Form.Presence (answer_to kv (Get key)) ≡ flag (is_some (finite.get kv key)) }
{}

/// What is replied to a delete: the former value, or whether there was one.
#[tactic(auto, using(crate::specs::Laws::former_replied, crate::specs::Laws::delete_replied))]
pub fn deletes_say_what_the_map_had()
    ensures value { (kv : Kv) (key : List ℕ)
        → reply_to Form.Value (answer_to kv (Delete key)) ≡ value_reply (finite.get kv key) }
    ensures presence { (kv : Kv) (key : List ℕ)
        → reply_to Form.Presence (answer_to kv (Delete key))
        ≡ flag (is_some (finite.get kv key)) }
{}

/// What is replied to a put: that it is done, or the former value; or that the map is full, and nothing was done.
#[tactic(auto, using(crate::specs::Laws::set_replied, crate::specs::Laws::set_get_replied))]
pub fn puts_say_whether_they_are_done()
    ensures done { (kv : Kv) (key : List ℕ) (value : List ℕ)
        → reply_to Form.Stored (answer_to kv (Put key value))
        ≡ cond (is_refused kv key) full (simple (codes "OK")) }
    ensures value { (kv : Kv) (key : List ℕ) (value : List ℕ)
        → reply_to Form.Value (answer_to kv (Put key value))
        ≡ cond (is_refused kv key) full (value_reply (finite.get kv key)) }
{}

/// What is replied to a swap: whether the key had the old value.
#[tactic(auto, using(crate::specs::Laws::swap_replied))]
pub fn swaps_say_whether_they_are_done()
    ensures { (kv : Kv) (key : List ℕ) (old : List ℕ) (new : List ℕ)
        → reply_to Form.Swapped (answer_to kv (Swap key old new))
        ≡ flag (has_value kv key old) }
{}

/// The bytes of each op that is asked for spell one, and each key that is read may be that of one.
pub fn asked_ops_are_spelled()
    ensures { (arguments : List (List ℕ)) → IsSpelled (asked arguments) }
{}
