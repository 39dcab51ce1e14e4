ghost use Rattle.std.specs.Prelude.{◌≡◌, ℕ, IfOk};
ghost use Rattle.transcript_reader.specs.Steps.{nothing_yet, so_far, step, IsStep};
ghost use Rattle.transcript_reader.specs.Steps.{event_step, state_step, observer_step, member_step};
ghost use Rattle.transcript_reader.specs.Steps.{end_step, is_events, may_have_states};
ghost use Rattle.transcript_reader.specs.Steps.{may_have_observers, is_over};
ghost use Rattle.transcript_reader.specs.Claims.{line_of};
ghost use Rattle.std.specs.Prelude.{◌∷◌, []};

use crate::claim::Claim;
use crate::part::Part;
use nop_types::{NoMemory, Request};
use std::alloc::Global;
use transcript_rows::Row;

/// What was read of a transcript: where the next line is, the claims with the numbers of their lines, and the history.
#[derive(Drop)]
pub struct Taken {
    pub part: Part,
    pub claims: Vec<Claim>,
    pub places: Vec<u32>,
    pub history: Vec<Request>,
}

fn is_events(part: Part) -> bool
    ensures { result ≡ is_events part }
{
    matches!(part, Part::Events)
}

fn may_have_states(part: Part) -> bool
    ensures { result ≡ may_have_states part }
{
    matches!(part, Part::Events | Part::States)
}

fn may_have_observers(part: Part) -> bool
    ensures { result ≡ may_have_observers part }
{
    matches!(part, Part::Events | Part::States | Part::Observers)
}

fn is_over(part: Part) -> bool
    ensures { result ≡ is_over part }
{
    matches!(part, Part::Over)
}

impl Taken {
    /// Nothing yet, behind the first line.
    pub fn new(alloc: Global) -> Taken
        ensures { so_far result ≡ nothing_yet }
    {
        Taken {
            part: Part::Events,
            claims: Vec::new(alloc),
            places: Vec::new(alloc),
            history: Vec::new(alloc),
        }
    }

    fn take_event(&mut self) -> bool
        ensures { (line : ℕ) → IsStep (event_step line (so_far self.old) []) result
            (so_far self.new) }
    {
        is_events(self.part)
    }

    fn take_claim(&mut self, line: u32, claim: Claim) -> Result<bool, NoMemory>
        ensures { IfOk result (λ took. IsStep
            (event_step line (so_far self.old) (line_of claim ∷ [])) took (so_far self.new)) }
    {
        if !is_events(self.part) {
            return Ok(false);
        }
        self.claims.push(claim)?;
        self.places.push(line)?;
        Ok(true)
    }

    fn take_state(&mut self) -> bool
        ensures { IsStep (state_step (so_far self.old)) result (so_far self.new) }
    {
        if !may_have_states(self.part) {
            return false;
        }
        self.part = Part::States;
        true
    }

    fn take_observer(&mut self) -> bool
        ensures { IsStep (observer_step (so_far self.old)) result (so_far self.new) }
    {
        if !may_have_observers(self.part) {
            return false;
        }
        self.part = Part::Observers;
        true
    }

    fn take_member(&mut self, place: u32, request: Request) -> Result<bool, NoMemory>
        ensures { IfOk result (λ took. IsStep (member_step (so_far self.old) place request) took
            (so_far self.new)) }
    {
        if is_over(self.part) {
            return Ok(false);
        }
        if place as usize != self.history.len() + 1 {
            return Ok(false);
        }
        self.history.push(request)?;
        self.part = Part::Members;
        Ok(true)
    }

    fn take_end(&mut self) -> bool
        ensures { IsStep (end_step (so_far self.old)) result (so_far self.new) }
    {
        if is_over(self.part) {
            return false;
        }
        self.part = Part::Over;
        true
    }

    /// Takes the row of the line with this number, and says whether it is in its place. A row that is not is not taken.
    pub fn take_row(&mut self, line: u32, row: Row) -> Result<bool, NoMemory>
        ensures { IfOk result (λ took. IsStep (step line (so_far self.old) row) took
            (so_far self.new)) }
    {
        match row {
            Row::Dead(_) => Ok(self.take_event()),
            Row::Busy(_) => Ok(self.take_event()),
            Row::Read { .. } => Ok(self.take_event()),
            Row::Answer { .. } => Ok(self.take_event()),
            Row::Sent { .. } => Ok(self.take_event()),
            Row::Submit(request) => self.take_claim(line, Claim::Submitted(request)),
            Row::Accept { client, id, result } => {
                self.take_claim(line, Claim::Accepted { client, id, result })
            }
            Row::State { .. } => Ok(self.take_state()),
            Row::Slot { .. } => Ok(self.take_state()),
            Row::Watching { .. } => Ok(self.take_observer()),
            Row::Member { place, request } => self.take_member(place, request),
            Row::End => Ok(self.take_end()),
        }
    }
}
