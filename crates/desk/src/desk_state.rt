//! What a desk keeps.

ghost use Rattle.std.specs.Prelude.{◌≡◌, ◌++◌, ◌∷◌, ◌<◌, ◌≤◌, ◌+◌, ◌^◌, [], map, length, None, IfOk, OnOk};
ghost use Rattle.std.specs.List.{position};
ghost use Rattle.nop_types.specs.Given.{given};
ghost use Rattle.client_quorum.specs.ClientSteps.{can_submit};
ghost use Rattle.desk.specs.Desks.{changed_at, cores_from, fewest_from, fewest_if, fill, freest, is_free_with, told_at};
ghost use Rattle.desk.specs.Submitters.{core_left, submits, submit_tells, takes, tells};

use crate::queue::Queue;
use crate::submitter::{Labelled, Queued, Submitter};
use nop_types::{Config, Input, NoMemory};
use std::alloc::Global;
use std::marker::Model;

/// The client cores, by the order of their numbers.
#[derive(Drop)]
pub struct Cores {
    cores: Vec<Submitter>,
}

impl Model for Cores {
    ghost use Rattle.std.specs.Prelude.{List};
    ghost use Rattle.desk.specs.declared.submitter.Submitter.{Submitter};

    ghost Value = { List Submitter };

    ghost view = { λ c. c.cores.items };
}

/// The cores, the ops that wait, and how many tickets were given out.
#[derive(Drop)]
pub struct DeskState {
    pub cores: Cores,
    pub queue: Queue,
    pub taken: u64,
}

/// The fewest tickets that this core, if it takes an op, and those before it hold.
fn fewer(before: Option<usize>, core: &Submitter) -> Option<usize>
    ensures { result ≡ fewest_if (can_submit core.now.client.state.requests) before
        (length core.now.held) }
{
    if !core.can_submit() {
        return before;
    }
    let held = core.held.len();
    match before {
        Some(least) => Some(least.min(held)),
        None => Some(held),
    }
}

/// The fewest tickets that a core holds which takes an op.
fn fewest(cores: &[Submitter]) -> Option<usize>
    ensures { result ≡ fewest_from None cores.now }
{
    let mut fewest: Option<usize> = None;
    for core in cores.iter() {
        fewest = fewer(fewest, core);
    }
    fewest
}

/// The first core that takes an op and holds so many tickets.
fn first_with(cores: &[Submitter], held: usize) -> Option<usize>
    ensures { result ≡ position (is_free_with held) cores.now }
{
    cores.iter().position(|s| s.is_free_with(held))
}

/// Of the cores that take an op, the first of those that hold the fewest tickets.
fn freest(cores: &[Submitter]) -> Option<usize>
    ensures { result ≡ freest cores.now }
{
    match fewest(cores) {
        Some(held) => first_with(cores, held),
        None => None,
    }
}

/// Cores with the numbers from the first one on.
#[tactic(auto, using(crate::proofs::Fills::one_made))]
fn cores_from(
    alloc: Global,
    config: Config,
    first: u32,
    count: usize,
) -> Result<Vec<Submitter>, NoMemory>
    requires { first + count ≤ 2 ^ 32 }
    ensures { IfOk result (λ cores. cores.items ≡ cores_from config first count) }
{
    let mut cores = Vec::new(alloc);
    for i in 0..count {
        cores.push(Submitter::new(alloc, config, first + i as u32)?)?;
    }
    Ok(cores)
}

fn leave_all(cores: &mut [Submitter], ticket: u64)
    ensures { cores.new ≡ map (core_left ticket) cores.old }
{
    for core in cores.iter_mut() {
        core.leave(ticket);
    }
}

impl Cores {
    pub(crate) fn new(
        alloc: Global,
        config: Config,
        first: u32,
        count: usize,
    ) -> Result<Cores, NoMemory>
        requires { first + count ≤ 2 ^ 32 }
        ensures { IfOk result (λ cores. cores ≡ cores_from config first count) }
    {
        Ok(Cores {
            cores: cores_from(alloc, config, first, count)?,
        })
    }

    pub fn as_slice(&self) -> &[Submitter]
        ensures { result.now ≡ self.now }
    {
        &self.cores
    }

    /// The user of a ticket left: what comes for it is for nobody.
    pub(crate) fn leave(&mut self, ticket: u64)
        ensures { self.new ≡ map (core_left ticket) self.old }
    {
        leave_all(&mut self.cores, ticket);
    }

    /// An input comes to the core at a place. Nothing where there is none.
    #[tactic(auto, using(crate::proofs::Places::changed_here, crate::proofs::Places::told_here, crate::proofs::Places::changed_past, crate::proofs::Places::told_past, crate::proofs::Places::none_past))]
    pub(crate) fn takes(
        &mut self,
        alloc: Global,
        core: usize,
        input: Input<'_>,
        told: &mut Vec<Labelled>,
    ) -> Result<(), NoMemory>
        ensures state { OnOk result (self.new
            ≡ changed_at core self.old (λ s. takes s (given input.entry))) }
        ensures told { OnOk result (told.new.items ≡ told.old.items
            ++ told_at core self.old (λ s. tells core s (given input.entry))) }
    {
        if core >= self.cores.len() {
            return Ok(());
        }
        self.cores[core].takes(alloc, core, input, told)?;
        Ok(())
    }

    /// The core at a place submits an op for a ticket. Nothing where there is none.
    #[tactic(auto, using(crate::proofs::Places::changed_here, crate::proofs::Places::told_here, crate::proofs::Places::changed_past, crate::proofs::Places::told_past, crate::proofs::Places::none_past))]
    pub(crate) fn submits(
        &mut self,
        alloc: Global,
        core: usize,
        queued: &Queued,
        told: &mut Vec<Labelled>,
    ) -> Result<(), NoMemory>
        ensures state { OnOk result (self.new
            ≡ changed_at core self.old (λ s. submits s queued.now)) }
        ensures told { OnOk result (told.new.items ≡ told.old.items
            ++ told_at core self.old (λ s. submit_tells core s queued.now)) }
    {
        if core >= self.cores.len() {
            return Ok(());
        }
        self.cores[core].submits(alloc, core, queued, told)?;
        Ok(())
    }
}

/// Ops are submitted in turn, as long as one waits and a core takes it.
#[tactic(auto, using(crate::proofs::Fills::fill_stuck, crate::proofs::Fills::fill_none, crate::proofs::Fills::fill_goes, crate::proofs::Fills::one_fewer, crate::proofs::Fills::stuck_tells_none, crate::proofs::Fills::none_tells_none))]
pub(crate) fn fill(
    alloc: Global,
    cores: &mut Cores,
    queue: &mut Queue,
    told: &mut Vec<Labelled>,
) -> Result<(), NoMemory>
    ensures cores { OnOk result (cores.new ≡ (fill cores.old queue.old).cores) }
    ensures queue { OnOk result (queue.new ≡ (fill cores.old queue.old).queue) }
    ensures told { OnOk result (told.new.items
        ≡ told.old.items ++ (fill cores.old queue.old).told) }
{
    while let Some(core) = freest(cores.as_slice()) {
        let Some(queued) = queue.take_first() else {
            return Ok(());
        };
        cores.submits(alloc, core, &queued, told)?;
    }
    Ok(())
}
