//! Where datagrams stand, by their bytes.

ghost use Rattle.std.specs.Prelude.{◌≡◌, length};
ghost use Rattle.std.specs.List.{All};
ghost use Rattle.std.specs.Str.{bytes_eq};
ghost use Rattle.network.specs.Finding.{first_index};
ghost use Rattle.network.specs.Marks.{all_sent, datagram_of, MarkFits};

use super::{Mark, Network, head_of, mark_at, rest_of};

/// Whether the datagram of a mark has the wanted bytes.
fn is_datagram(bytes: &[u8], mark: Mark, wanted: &[u8]) -> bool
    requires { MarkFits (length bytes.now) mark }
    ensures { result ≡ bytes_eq (datagram_of bytes.now mark) wanted.now }
{
    let head = head_of(bytes, mark);
    let rest = rest_of(bytes, mark);
    if wanted.len() != head.len() + rest.len() {
        return false;
    }
    let (prefix, back) = wanted.split_at(head.len());
    prefix == head && back == rest
}

/// The index of the first datagram with the wanted bytes, by a walk over all.
fn walk(bytes: &[u8], marks: &[Mark], wanted: &[u8]) -> Option<u64>
    requires { All (MarkFits (length bytes.now)) marks.now }
    ensures { result ≡ first_index wanted.now (all_sent bytes.now marks.now) }
{
    for i in 0..marks.len() {
        if is_datagram(bytes, mark_at(marks, i), wanted) {
            return Some(i as u64);
        }
    }
    None
}

impl Network {
    /// The index of the first datagram with these bytes, None where none has them.
    pub fn find(&self, bytes: &[u8]) -> Option<u64>
        ensures { result ≡ first_index bytes.now self.now }
    {
        match &self.index {
            Some(index) => index.find(bytes),
            None => walk(&self.bytes, &self.marks, bytes),
        }
    }
}
