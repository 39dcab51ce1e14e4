//! How a replica stands, and what a step changed.

ghost use Rattle.drawing.specs.Gathered.{AddsMarked, AddsSome};

use crate::notes::Notes;
use nop_types::{Entry, Host, NoMemory, Phase, View, leader_of};
use picture::{Mark, Role, Text};
use picture_labels::{put_request, put_view};
use replica_core::Replica;
use std::alloc::Global;
use world::World;

/// How many changed slots of a step have notes of their own, at most.
const MAX_SLOT_NOTES: usize = 4;

/// The request in a slot.
#[derive(Clone, Copy)]
pub struct Held {
    client: u32,
    id: u64,
}

/// What a picture shows of the replica with a number: its view, whether it takes part, its sync point, and its slots after the first
/// `known` ones, None for a NO-OP. The first ones were synchronised before, so they stay as they are.
#[derive(Drop)]
pub struct Standing {
    pub number: u8,
    view: View,
    status: Phase,
    pub sync_point: u32,
    known: u32,
    slots: Vec<Option<Held>>,
}

fn request_in(entry: &Entry) -> Option<Held> {
    match entry {
        Entry::NoOp => None,
        Entry::Req(request) => Some(Held {
            client: request.client,
            id: request.id,
        }),
    }
}

/// The slots of a replica's log after the first ones, those that moved out of it among them.
fn slots_of<H: Host>(
    alloc: Global,
    number: u8,
    world: &World<H>,
    known: u32,
    len: u32,
) -> Result<Vec<Option<Held>>, NoMemory> {
    let mut slots = Vec::new(alloc);
    for place in known..len {
        if let Some(entry) = world.entry(number, place + 1) {
            slots.push(request_in(entry))?;
        }
    }
    Ok(slots)
}

/// How a replica of a world stands, whose first slots are known.
pub fn standing_of<H: Host>(
    alloc: Global,
    number: u8,
    world: &World<H>,
    replica: &Replica<H>,
    known: u32,
) -> Result<Standing, NoMemory> {
    Ok(Standing {
        number,
        view: replica.view(),
        status: replica.status(),
        sync_point: replica.sync_point(),
        known,
        slots: slots_of(alloc, number, world, known, replica.log().len())?,
    })
}

/// The role of a replica among so many.
pub fn role(standing: &Standing, replicas: u8) -> Role {
    match standing.status {
        Phase::Change => Role::Waits,
        Phase::Normal => role_in(standing.view, standing.number, replicas),
    }
}

/// The role of a replica in a view that has started.
fn role_in(view: View, number: u8, replicas: u8) -> Role {
    if replicas > 0 && leader_of(view, replicas) == number {
        Role::Leads
    } else {
        Role::Follows
    }
}

/// Appends a note, one of whose parts is a number.
fn put_count(alloc: Global, mark: Mark, before: &str, n: u64, after: &str, notes: &mut Notes)
    ensures { AddsMarked notes.old notes.new mark }
{
    let mut text = Text::new(alloc);
    text.numbered(before, n);
    text.put(after);
    notes.put(mark, text);
}

fn put_phase(view: View, status: Phase, to: &mut Text) -> Mark {
    match status {
        Phase::Change => {
            put_view("enters view ", view, to);
            Mark::Entered
        }
        Phase::Normal => {
            put_view("view ", view, to);
            to.put(" starts");
            Mark::Started
        }
    }
}

fn note_view(alloc: Global, after: &Standing, notes: &mut Notes)
    ensures { AddsSome notes.old notes.new }
{
    let mut text = Text::new(alloc);
    let mark = put_phase(after.view, after.status, &mut text);
    notes.put(mark, text);
}

fn put_held(slot: u64, held: Option<Held>, to: &mut Text) -> Mark {
    to.number(slot);
    match held {
        None => {
            to.put(": NO-OP");
            Mark::NoOp
        }
        Some(held) => {
            to.put(": ");
            put_request(held.client, held.id, to);
            Mark::Logged
        }
    }
}

fn note_slot(alloc: Global, slot: u64, held: Option<Held>, notes: &mut Notes)
    ensures { AddsSome notes.old notes.new }
{
    let mut text = Text::new(alloc);
    let mark = put_held(slot, held, &mut text);
    notes.put(mark, text);
}

fn is_same(a: Option<Held>, b: Option<Held>) -> bool {
    match (a, b) {
        (Some(a), Some(b)) => a.client == b.client && a.id == b.id,
        (None, None) => true,
        _ => false,
    }
}

impl Standing {
    /// The number of slots.
    fn len(&self) -> u64 {
        u64::from(self.known).saturating_add(self.slots.len() as u64)
    }

    /// Whether a slot has this entry.
    fn has(&self, slot: u64, held: Option<Held>) -> bool {
        let Some(place) = slot.checked_sub(u64::from(self.known) + 1) else {
            return false;
        };
        match self.slots.get(place as usize) {
            Some(own) => is_same(*own, held),
            None => false,
        }
    }
}

/// Whether a slot came with a checkpoint: its entry changed, and it is below the sync point.
fn is_covered(before: &Standing, after: &Standing, slot: u64, held: Option<Held>) -> bool {
    slot <= u64::from(after.sync_point) && !before.has(slot, held)
}

/// Whether the replica took a checkpoint: only with one do slots change that are synchronised.
fn takes_checkpoint(before: &Standing, after: &Standing) -> bool {
    let mut slot = u64::from(after.known);
    for held in &after.slots {
        slot = slot.saturating_add(1);
        if is_covered(before, after, slot, *held) {
            return true;
        }
    }
    false
}

/// Appends the notes of the first slots above the sync point with another entry than before, and says how many such slots there are.
fn put_changed(alloc: Global, before: &Standing, after: &Standing, notes: &mut Notes) -> usize
    ensures { AddsSome notes.old notes.new }
{
    let mut changed = 0usize;
    let mut slot = u64::from(after.known);
    for held in &after.slots {
        slot = slot.saturating_add(1);
        if !before.has(slot, *held) && !is_covered(before, after, slot, *held) {
            if changed < MAX_SLOT_NOTES {
                note_slot(alloc, slot, *held, notes);
            }
            changed = changed.saturating_add(1);
        }
    }
    changed
}

fn put_checkpoint(alloc: Global, before: &Standing, after: &Standing, notes: &mut Notes)
    ensures { AddsSome notes.old notes.new }
{
    if takes_checkpoint(before, after) {
        let point = u64::from(after.sync_point);
        put_count(alloc, Mark::Checkpoint, "checkpoint to ", point, "", notes);
    }
}

fn put_log(alloc: Global, before: &Standing, after: &Standing, notes: &mut Notes)
    ensures { AddsSome notes.old notes.new }
{
    put_checkpoint(alloc, before, after, notes);
    let changed = put_changed(alloc, before, after, notes);
    let more = changed.saturating_sub(MAX_SLOT_NOTES) as u64;
    if more > 0 {
        put_count(alloc, Mark::Logged, "", more, " more slots", notes);
    }
    if after.len() < before.len() {
        put_count(alloc, Mark::Logged, "log of ", after.len(), "", notes);
    }
}

/// Appends what changed from one standing of a replica to another.
pub fn put_changes(alloc: Global, before: &Standing, after: &Standing, notes: &mut Notes)
    ensures { AddsSome notes.old notes.new }
{
    if !before.view.is(after.view) || before.status != after.status {
        note_view(alloc, after, notes);
    }
    put_log(alloc, before, after, notes);
    if before.sync_point != after.sync_point {
        let point = u64::from(after.sync_point);
        put_count(alloc, Mark::Synced, "synced to ", point, "", notes);
    }
}
