//! What follows for lists that were read.

ghost use Rattle.std.specs.Prelude.{◌≡◌, ◌∷◌, ◌++◌, ℕ, List, Ok, Some, slice_get};
ghost use Rattle.std.specs.Net.Grammar.{IsSocketText};
ghost use Rattle.std.specs.declared.net.socket_addr.SocketAddr.{SocketAddr};
ghost use Rattle.nop_types.specs.declared.output.Actor.{Actor};
ghost use Rattle.host_list.specs.declared.entry.Entry.TheVariants as entries;
ghost use Rattle.host_list.specs.declared.list.HostList.{HostList};
ghost use Rattle.host_list.specs.Addresses.{spelled_address};
ghost use Rattle.host_list.specs.Lists.{IsOnLine, address_with};
ghost use Rattle.host_list.specs.Places.{address_at, place_of};
ghost use Rattle.host_list.specs.Reading.{entry_of, list_in, list_of};
ghost use Rattle.host_list.specs.Words.{lines_of};

/// A word spells an address where the library's grammar says so.
pub fn addresses_are_of_the_grammar()
    ensures read { (word : List ℕ) (a : SocketAddr) → IsSocketText word a
        → spelled_address word ≡ Some a }
    ensures text { (word : List ℕ) (a : SocketAddr) → spelled_address word ≡ Some a
        → IsSocketText word a }
{}

/// No two actors have one address, but for clients of one place.
pub fn addresses_are_apart()
    ensures { (text : List ℕ) (l : HostList) (x y : Actor) (a : SocketAddr)
        → list_of text ≡ Ok l → address_with l x ≡ Some a → address_with l y ≡ Some a
        → place_of x ≡ place_of y }
{}

/// No two lines have one name.
pub fn names_are_apart()
    ensures hosts { (text : List ℕ) (l : HostList) (i j p : ℕ) (line other : List ℕ)
        (a b : SocketAddr) → list_of text ≡ Ok l
        → slice_get (lines_of text) i ≡ Some line → slice_get (lines_of text) j ≡ Some other
        → entry_of line ≡ Ok (entries.Host p a) → entry_of other ≡ Ok (entries.Host p b)
        → i ≡ j }
    ensures clusters { (text : List ℕ) (l : HostList) (i j n m : ℕ) (line other : List ℕ)
        → list_of text ≡ Ok l
        → slice_get (lines_of text) i ≡ Some line → slice_get (lines_of text) j ≡ Some other
        → entry_of line ≡ Ok (entries.Cluster n) → entry_of other ≡ Ok (entries.Cluster m)
        → i ≡ j }
{}

/// A list says what its lines say, and nothing else.
pub fn lists_say_what_lines_say()
    ensures hosts { (text : List ℕ) (l : HostList) (i p : ℕ) (line : List ℕ) (a : SocketAddr)
        → list_of text ≡ Ok l → slice_get (lines_of text) i ≡ Some line
        → entry_of line ≡ Ok (entries.Host p a) → address_at l.addresses p ≡ Some a }
    ensures cluster { (text : List ℕ) (l : HostList) (i n : ℕ) (line : List ℕ)
        → list_of text ≡ Ok l → slice_get (lines_of text) i ≡ Some line
        → entry_of line ≡ Ok (entries.Cluster n) → l.cluster ≡ n }
    ensures nothing_else { (text : List ℕ) (l : HostList) (p : ℕ) (a : SocketAddr)
        → list_of text ≡ Ok l → address_at l.addresses p ≡ Some a
        → IsOnLine (lines_of text) p a }
{}

/// Two lines next to each other may change places, and so lines may stand in any order.
pub fn order_says_nothing()
    ensures { (xs ys : List (List ℕ)) (a b : List ℕ) (l : HostList)
        → list_in (xs ++ a ∷ b ∷ ys) ≡ Ok l → list_in (xs ++ b ∷ a ∷ ys) ≡ Ok l }
{}
