ghost use Rattle.std.specs.Prelude.{◌≡◌, map, IsTrue, is_some, IfSome, IfOk};
ghost use Rattle.std.specs.List.{AllByRecursion};
ghost use Rattle.std.specs.Option.{option_copied};
ghost use Rattle.nop_types.specs.Checkpoints.{saved_account, runs_to, least_kept, are_answers, is_account, are_saved};
ghost use Rattle.nop_types.specs.Checkpoints.{is_checkpoint, IsSavedAccount, CheckpointFits};

use crate::{Bytes, MAX_HOST_BYTES, MAX_RESULT_BYTES, MAX_SERVED, NoMemory, WINDOW};
use std::alloc::Global;
use std::marker::Model;

/// An executed id, with its result.
#[derive(Debug, Drop)]
pub struct Answered {
    pub id: u64,
    pub result: Bytes,
}

/// A client with its greatest executed id, and the results that may be asked for again, by ascending id.
#[derive(Debug, Drop)]
pub struct SavedClient {
    pub client: u32,
    pub greatest: u64,
    pub kept: Vec<Answered>,
}

/// An execution as values: the host's state as at most `MAX_HOST_BYTES` bytes, and at most `MAX_SERVED` clients, ascending, each
/// with results of at most `MAX_RESULT_BYTES` bytes: of its greatest id, and of others from 1 less than `WINDOW` behind.
#[derive(Debug, Drop)]
pub struct Checkpoint {
    host: Bytes,
    clients: Vec<SavedClient>,
}

impl Model for Checkpoint {
    ghost use Rattle.std.specs.Prelude.{map};
    ghost use Rattle.nop_types.specs.Checkpoints.{saved_account, CheckpointFits};
    ghost use Rattle.nop_types.specs.Checkpoints as saved;

    ghost Value = { saved.Checkpoint };

    ghost view = { λ c. record { host = c.host; clients = map saved_account c.clients.items } };

    ghost invariant = { λ c. CheckpointFits (record {
      host = c.host;
      clients = map saved_account c.clients.items;
    }) };
}

impl Answered {
    pub fn try_clone(&self) -> Result<Answered, NoMemory>
        ensures { IfOk result (λ a. a ≡ self.now) }
    {
        Ok(Answered {
            id: self.id,
            result: self.result.try_clone()?,
        })
    }
}

/// A copy of kept results.
pub fn try_clone_answers(alloc: Global, kept: &[Answered]) -> Result<Vec<Answered>, NoMemory>
    ensures { IfOk result (λ copy. copy.items ≡ kept.now) }
{
    let mut copy = Vec::with_capacity(alloc, kept.len())?;
    for answered in kept {
        copy.push(answered.try_clone()?)?;
    }
    Ok(copy)
}

impl SavedClient {
    pub fn try_clone(&self) -> Result<SavedClient, NoMemory>
        ensures { IfOk result (λ c. saved_account c ≡ saved_account self.now) }
    {
        Ok(SavedClient {
            client: self.client,
            greatest: self.greatest,
            kept: try_clone_answers(*self.kept.allocator(), &self.kept)?,
        })
    }
}

/// A client is as it is saved: its fields have their types.
fn typed(saved: &SavedClient)
    ensures { IsSavedAccount (saved_account saved.now) }
{
    let _client = saved.client;
    let _greatest = saved.greatest;
}

/// The least id that may have a result.
fn least_kept(greatest: u64) -> u64
    ensures { result ≡ least_kept greatest }
{
    greatest.saturating_sub(WINDOW - 1)
}

/// Whether the ids ascend within the window, up to the greatest one.
fn is_kept(greatest: u64, kept: &[Answered]) -> bool
    ensures { result ≡ runs_to greatest (least_kept greatest) kept.now }
{
    let mut least = u128::from(least_kept(greatest));
    for answered in kept {
        let id = u128::from(answered.id);
        if id < least {
            return false;
        }
        least = id + 1;
    }
    least == u128::from(greatest) + 1
}

/// Whether each id is from 1, with a short result.
fn are_answers(kept: &[Answered]) -> bool
    ensures { result ≡ are_answers kept.now }
{
    kept.iter().all(|a| a.id >= 1 && a.result.as_slice().len() <= MAX_RESULT_BYTES)
}

/// Whether these are results that may be kept, in their ranges.
fn is_account(greatest: u64, kept: &[Answered]) -> bool
    ensures { result ≡ is_account (record { greatest = greatest; kept = kept.now }) }
{
    is_kept(greatest, kept) && are_answers(kept)
}

/// Whether the clients ascend, each with results that may be kept.
fn are_saved(clients: &[SavedClient]) -> bool
    ensures saved { result ≡ are_saved 0 (map saved_account clients.now) }
    ensures each { IsTrue result → AllByRecursion IsSavedAccount (map saved_account clients.now) }
{
    let mut least = 0u64;
    for saved in clients {
        if u64::from(saved.client) < least || !is_account(saved.greatest, &saved.kept) {
            return false;
        }
        typed(saved);
        least = u64::from(saved.client) + 1;
    }
    true
}

impl Checkpoint {
    /// None exactly outside the limits, or where the clients do not ascend.
    pub fn new(host: Bytes, clients: Vec<SavedClient>) -> Option<Checkpoint>
        ensures some { is_some result
            ≡ is_checkpoint (record { host = host; clients = map saved_account clients.items }) }
        ensures value { IfSome result (λ c.
            c ≡ record { host = host; clients = map saved_account clients.items }) }
    {
        if host.as_slice().len() > MAX_HOST_BYTES {
            return None;
        }
        if clients.len() > MAX_SERVED || !are_saved(&clients) {
            return None;
        }
        Some(Checkpoint { host, clients })
    }

    pub fn host(&self) -> &Bytes
        ensures host { result.now ≡ self.now.host }
        ensures fits { CheckpointFits self.now }
    {
        &self.host
    }

    pub fn clients(&self) -> &[SavedClient]
        ensures clients { map saved_account result.now ≡ self.now.clients }
        ensures fits { CheckpointFits self.now }
    {
        &self.clients
    }

    /// The parts, without a copy. The clients ascend, each with results that may be kept.
    pub fn into_parts(self) -> (Bytes, Vec<SavedClient>)
        ensures host { result.0 ≡ self.host }
        ensures clients { map saved_account result.1.items ≡ self.clients }
        ensures fits { CheckpointFits self }
        ensures saved { IsTrue (are_saved 0 (map saved_account result.1.items)) }
    {
        let Checkpoint { host, clients } = self;
        (host, clients)
    }

    /// A copy of the clients.
    pub fn try_clone_clients(&self) -> Result<Vec<SavedClient>, NoMemory>
        ensures clients { IfOk result (λ copy. map saved_account copy.items ≡ self.now.clients) }
        ensures fits { CheckpointFits self.now }
    {
        let mut clients = Vec::with_capacity(*self.clients.allocator(), self.clients.len())?;
        for client in &self.clients {
            clients.push(client.try_clone()?)?;
        }
        Ok(clients)
    }

    pub fn try_clone(&self) -> Result<Checkpoint, NoMemory>
        ensures { IfOk result (λ c. c ≡ self.now) }
    {
        Ok(Checkpoint {
            host: self.host.try_clone()?,
            clients: self.try_clone_clients()?,
        })
    }
}

/// A copy of a checkpoint, where there is one.
pub fn try_clone_checkpoint(checkpoint: Option<&Checkpoint>) -> Result<Option<Checkpoint>, NoMemory>
    ensures { IfOk result (λ copy. copy ≡ option_copied checkpoint.entry) }
{
    match checkpoint {
        Some(checkpoint) => Ok(Some(checkpoint.try_clone()?)),
        None => Ok(None),
    }
}
