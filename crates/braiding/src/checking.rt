//! Whether numbers of lines are an order of them.

ghost use Rattle.std.specs.Prelude.{◌≡◌, ◌<◌, ◌++◌, ◌∷◌, [], true, List, ℕ, length, vec_len, IfOk};
ghost use Rattle.braiding.specs.Checks.{AreMarked, Follows};
ghost use Rattle.braiding.specs.Orders.{starts, texts_of, Fits, IsOrder};

use crate::traces::{Line, node_in, starts_step, text_at};
use std::alloc::{AllocError, Global};
use std::collections::HashMap;

/// What is known of the lines that were looked at.
#[derive(Drop)]
struct Marks {
    alloc: Global,
    /// Which they are.
    seen: Vec<bool>,
    /// The number behind that of the last one.
    behind: usize,
    /// Where the last step of each node starts.
    last: HashMap<Vec<u8>, usize>,
}

/// Whether a step starts with the line.
fn starts(lines: &[Line], place: usize) -> bool
    requires { place < length lines.now }
    ensures { result ≡ starts (texts_of lines.now) place }
{
    place > 0 && starts_step(text_at(lines, place))
}

impl Marks {
    /// Whether the line stands behind the one before it in its step, or its node's earlier steps.
    fn follows(&mut self, lines: &[Line], place: usize) -> Result<bool, AllocError>
        requires { place < length lines.now }
        ensures seen { self.new.seen ≡ self.old.seen }
        ensures follows { IfOk result (λ b. b ≡ true
            → Follows (texts_of lines.now) self.old self.new place) }
    {
        if !starts(lines, place) {
            return Ok(place == self.behind);
        }
        let name = Vec::from_slice(self.alloc, node_in(text_at(lines, place)))?;
        match self.last.insert(name, place)? {
            Some(before) => Ok(before < place),
            None => Ok(true),
        }
    }

    /// Whether this line may come next.
    fn fits(&mut self, lines: &[Line], place: usize) -> Result<bool, AllocError>
        requires { vec_len self.old.seen ≡ length lines.now }
        ensures seen { vec_len self.new.seen ≡ length lines.now }
        ensures fits { IfOk result (λ b. b ≡ true → (before : List ℕ)
            → AreMarked (texts_of lines.now) self.old before
            → Fits (texts_of lines.now) before place) }
        ensures marked { IfOk result (λ b. b ≡ true → (before : List ℕ)
            → AreMarked (texts_of lines.now) self.old before
            → AreMarked (texts_of lines.now) self.new (before ++ place ∷ [])) }
    {
        if place >= lines.len() || self.seen[place] || !self.follows(lines, place)? {
            return Ok(false);
        }
        self.seen[place] = true;
        self.behind = place + 1;
        Ok(true)
    }
}

/// Whether each line stands there once, and where it may.
pub(crate) fn is_order(alloc: Global, lines: &[Line], order: &[usize]) -> Result<bool, AllocError>
    ensures { IfOk result (λ b. b ≡ true → IsOrder (texts_of lines.now) order.now) }
{
    if order.len() != lines.len() {
        return Ok(false);
    }
    let mut marks = Marks {
        alloc,
        seen: vec![in alloc; false; lines.len()]?,
        behind: 0,
        last: HashMap::new(alloc),
    };
    for place in order {
        if !marks.fits(lines, *place)? {
            return Ok(false);
        }
    }
    Ok(true)
}
