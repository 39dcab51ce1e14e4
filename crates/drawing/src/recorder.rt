//! What a picture shows of a run, as it goes on.

ghost use Rattle.std.specs.Prelude.{
  ◌≡◌,
  ◌++◌,
  ◌∷◌,
  [],
  false,
  length,
  slice_get,
  string_bytes,
  IfOk,
  OnOk,
};
ghost use Rattle.picture.specs.Texts.{Grows, IsWhole};
ghost use Rattle.world.specs.WorldSteps.{actor_of};
ghost use Rattle.drawing.specs.Gathered.{
  arrows_after,
  crashes_now,
  idle_mark,
  is_none,
  mark_of,
  notes_of,
  stretches_of,
  text_of,
  with_arrow,
  with_crash,
  AddsIf,
  AddsNotes,
  AddsSome,
  IsIntact,
  RowShows,
  Watches,
};
ghost use Rattle.drawing.specs.Rows.{AddsFlight, AddsRow};

use crate::events::{event_text, put_submitted};
use crate::notes::Notes;
use crate::standing::{Standing, put_changes, role};
use nop_types::{Actor, Config, Dest, NoMemory};
use op_text::OpText;
use picture::{Mark, Note, Picture, Role, Row, Stretch, Text, draw, same};
use picture_arrows::{Crash, Flight, Leg, actors, deliver, lanes, losses};
use picture_labels::Label;
use schedule_text::Event;
use std::alloc::Global;
use world::actor_of;

/// The actor whose step an event is, the row of the event, and how many datagrams were sent before.
#[derive(Clone, Copy)]
pub struct Turn {
    pub actor: Actor,
    pub row: usize,
    pub sent_before: u64,
}

/// A replica as it stands, its role, and since which row it has it, None from the top.
#[derive(Drop)]
struct Watched {
    standing: Standing,
    role: Role,
    since: Option<usize>,
}

/// What a picture shows of a run so far. Want of memory is told at the end of a turn.
#[derive(Drop)]
pub struct Recorder {
    alloc: Global,
    config: Config,
    watched: Vec<Watched>,
    flights: Vec<Flight>,
    crashes: Vec<Crash>,
    /// The notes of the row that comes next.
    notes: Notes,
    picture: Picture,
    failed: bool,
}

/// The row in which an actor crashed.
fn crash_row(crashes: &[Crash], actor: Actor) -> Option<usize> {
    for crash in crashes {
        if same(crash.actor, actor) {
            return Some(crash.row);
        }
    }
    None
}

/// The role of an actor at the end, and since which row it has it.
fn last_role(watched: &[Watched], actor: Actor) -> (Role, Option<usize>) {
    if let Actor::Replica(number) = actor {
        if let Some(watched) = watched.get(number as usize) {
            return (watched.role, watched.since);
        }
    }
    (Role::Follows, None)
}

/// Appends the last stretch of each lane, which ends with a crash or at the bottom.
fn put_last(
    lanes: &[Actor],
    watched: &[Watched],
    crashes: &[Crash],
    stretches: &mut Vec<Stretch>,
) -> Result<(), NoMemory> {
    for actor in lanes {
        let (role, from) = last_role(watched, *actor);
        stretches.push(Stretch {
            actor: *actor,
            role,
            from,
            to: crash_row(crashes, *actor),
        })?;
    }
    Ok(())
}

/// Another role of a replica since a row: the stretch of the earlier one.
fn change_role(role: Role, row: usize, watched: &mut Watched) -> Option<Stretch> {
    if role.is(watched.role) {
        return None;
    }
    let stretch = Stretch {
        actor: Actor::Replica(watched.standing.number),
        role: watched.role,
        from: watched.since,
        to: Some(row),
    };
    watched.role = role;
    watched.since = Some(row);
    Some(stretch)
}

/// Appends what changed at a replica, and ends its stretch where its role did.
fn compare(
    alloc: Global,
    replicas: u8,
    row: usize,
    after: Standing,
    watched: &mut Watched,
    notes: &mut Notes,
) -> Option<Stretch>
    ensures { AddsSome notes.old notes.new }
{
    put_changes(alloc, &watched.standing, &after, notes);
    let role = role(&after, replicas);
    watched.standing = after;
    change_role(role, row, watched)
}

impl Recorder {
    /// Nothing happened so far.
    pub fn new(alloc: Global, config: Config) -> Recorder {
        Recorder {
            alloc,
            config,
            watched: Vec::new(alloc),
            flights: Vec::new(alloc),
            crashes: Vec::new(alloc),
            notes: Notes::new(alloc),
            picture: Picture {
                lanes: Vec::new(alloc),
                rows: Vec::new(alloc),
                arrows: Vec::new(alloc),
                losses: Vec::new(alloc),
                stretches: Vec::new(alloc),
            },
            failed: false,
        }
    }

    /// The next of the replicas, as it stands at the top.
    pub fn watch(&mut self, standing: Standing)
        ensures watched { self.new.failed ≡ false →
            Watches self.old.watched.items self.new.watched.items standing }
        ensures failed { self.new.failed ≡ false → self.old.failed ≡ false }
        ensures others { self.new
            ≡ record self.old { watched = self.new.watched; failed = self.new.failed } }
    {
        let role = role(&standing, self.config.replicas());
        let watched = Watched {
            standing,
            role,
            since: None,
        };
        self.failed |= self.watched.push(watched).is_err();
    }

    /// The turn of an event that comes next.
    pub fn turn(&self, event: &Event) -> Turn
        ensures actor { result.actor ≡ actor_of event.now }
        ensures row { result.row ≡ length self.now.picture.rows.items }
        ensures sent { result.sent_before ≡ length self.now.flights.items }
    {
        Turn {
            actor: actor_of(event),
            row: self.picture.rows.len(),
            sent_before: self.flights.len() as u64,
        }
    }

    /// The arrow of a delivery. Appends what was delivered.
    fn deliver(&mut self, index: u64, to: Actor, row: usize, detail: &mut Text)
        ensures arrow { self.new.failed ≡ false → self.new.picture.arrows.items
            ≡ with_arrow (slice_get self.old.flights.items index) to row
            self.old.picture.arrows.items }
        ensures text { Grows detail.old detail.new
            (text_of (slice_get self.old.flights.items index)) }
        ensures failed { self.new.failed ≡ false → self.old.failed ≡ false }
        ensures notes { self.new.notes ≡ self.old.notes }
        ensures rows { self.new.picture.rows ≡ self.old.picture.rows }
    {
        if let Some(flight) = self.flights.get_mut(index as usize) {
            detail.put(flight.text.as_str());
            match deliver(flight, to, row) {
                Ok(arrow) => self.failed |= self.picture.arrows.push(arrow).is_err(),
                Err(_) => self.failed = true,
            }
        }
    }

    /// What was delivered or submitted.
    fn detail<T: OpText>(&mut self, event: &Event, row: usize) -> Result<String, NoMemory>
        ensures arrow { self.new.failed ≡ false → self.new.picture.arrows.items
            ≡ arrows_after event.now row self.old.flights.items self.old.picture.arrows.items }
        ensures failed { self.new.failed ≡ false → self.old.failed ≡ false }
        ensures notes { self.new.notes ≡ self.old.notes }
        ensures rows { self.new.picture.rows ≡ self.old.picture.rows }
    {
        let mut detail = Text::new(self.alloc);
        match event {
            Event::Deliver(index, to) => self.deliver(*index, *to, row, &mut detail),
            _ => put_submitted::<T>(self.alloc, event, &mut detail)?,
        }
        detail.finish()
    }

    /// What a client did in a turn.
    pub fn put_said(&mut self, notes: Vec<Note>)
        ensures { self.new
            ≡ record self.old { notes = record self.old.notes { written = notes } } }
    {
        self.notes.set(notes);
    }

    /// Keeps a datagram, unless memory runs out.
    fn push_flight(&mut self, flight: Flight)
        ensures flight { self.new.failed ≡ false → self.new.flights.items
            ≡ self.old.flights.items ++ flight ∷ [] }
        ensures failed { self.new.failed ≡ false → self.old.failed ≡ false }
        ensures notes { self.new.notes ≡ self.old.notes }
        ensures rows { self.new.picture.rows ≡ self.old.picture.rows }
    {
        match self.flights.push(flight) {
            Ok(()) => {}
            Err(_) => self.failed = true,
        }
    }

    /// A datagram that was sent in a turn.
    pub fn put_sent(&mut self, turn: Turn, dest: Dest, label: Label)
        ensures flight { self.new.failed ≡ false → AddsFlight self.old.flights.items
            self.new.flights.items (record {
              purpose = label.purpose;
              from = turn.actor;
              sent = turn.row;
              dest = dest;
            }) }
        ensures note { AddsNotes self.old.notes self.new.notes (notes_of label.note) }
        ensures failed { self.new.failed ≡ false → self.old.failed ≡ false }
        ensures rows { self.new.picture.rows ≡ self.old.picture.rows }
    {
        self.notes.extend(label.note);
        let flight = Flight {
            leg: Leg {
                purpose: label.purpose,
                from: turn.actor,
                sent: turn.row,
                dest,
            },
            text: label.text,
            brief: label.brief,
            reached: Vec::new(self.alloc),
        };
        self.push_flight(flight);
    }

    /// The sync point of a replica as it stands, 0 of one that is not there: the slots up to it stay as they are.
    pub fn synced(&self, number: u8) -> u32 {
        match self.watched.get(number as usize) {
            Some(watched) => watched.standing.sync_point,
            None => 0,
        }
    }

    /// Appends the stretch of a role that ended, if one did.
    fn put_stretch(&mut self, stretch: Option<Stretch>)
        ensures stretch { self.new.failed ≡ false → self.new.picture.stretches.items
            ≡ self.old.picture.stretches.items ++ stretches_of stretch }
        ensures failed { self.new.failed ≡ false → self.old.failed ≡ false }
        ensures notes { self.new.notes ≡ self.old.notes }
        ensures rows { self.new.picture.rows ≡ self.old.picture.rows }
    {
        if let Some(stretch) = stretch {
            self.failed |= self.picture.stretches.push(stretch).is_err();
        }
    }

    /// How a replica stands after a turn.
    pub fn put_standing(&mut self, turn: Turn, after: Standing)
        ensures notes { AddsSome self.old.notes self.new.notes }
        ensures failed { self.new.failed ≡ false → self.old.failed ≡ false }
        ensures rows { self.new.picture.rows ≡ self.old.picture.rows }
    {
        let replicas = self.config.replicas();
        let notes = &mut self.notes;
        if let Some(watched) = self.watched.get_mut(after.number as usize) {
            let stretch = compare(self.alloc, replicas, turn.row, after, watched, notes);
            self.put_stretch(stretch);
        }
    }

    /// Keeps the crash of an event that is one, unless the actor had crashed before.
    fn put_crash(&mut self, event: &Event, turn: Turn)
        ensures crash { self.new.failed ≡ false → self.new.crashes.items
            ≡ with_crash (crashes_now event.now self.old.notes.written.items) turn
            self.old.crashes.items }
        ensures note { AddsIf (crashes_now event.now self.old.notes.written.items)
            self.old.notes self.new.notes Mark.Crashed }
        ensures failed { self.new.failed ≡ false → self.old.failed ≡ false }
        ensures others { self.new ≡ record self.old {
          crashes = self.new.crashes;
          notes = self.new.notes;
          failed = self.new.failed;
        } }
    {
        if matches!(event, Event::Crash(_)) && self.notes.is_empty() {
            let crash = Crash {
                actor: turn.actor,
                row: turn.row,
            };
            self.failed |= self.crashes.push(crash).is_err();
            let mut text = Text::new(self.alloc);
            text.put("crash");
            self.notes.put(Mark::Crashed, text);
        }
    }

    /// One note at least: whether something was sent.
    fn fill(&mut self, turn: Turn)
        ensures note { AddsIf (is_none self.old.notes.written.items) self.old.notes self.new.notes
            (idle_mark turn (length self.old.flights.items)) }
        ensures others { self.new ≡ record self.old { notes = self.new.notes } }
    {
        if self.notes.is_empty() {
            let sends = self.flights.len() as u64 > turn.sent_before;
            let mark = if sends { Mark::Acted } else { Mark::Idle };
            self.notes.put(mark, Text::new(self.alloc));
        }
    }

    /// The row of a turn, after all that was seen of it.
    pub fn end<T: OpText>(&mut self, line: u32, event: &Event, turn: Turn) -> Result<(), NoMemory>
        ensures row { OnOk result (AddsRow self.old.picture.rows.items
            self.new.picture.rows.items line event.now turn.actor) }
        ensures notes { OnOk result (RowShows self.old.picture.rows.items
            self.new.picture.rows.items self.old.notes.written.items
            (mark_of event.now turn (length self.old.flights.items))) }
        ensures left { OnOk result (self.new.notes.written.items ≡ []) }
        ensures arrow { OnOk result (self.new.picture.arrows.items
            ≡ arrows_after event.now turn.row self.old.flights.items
            self.old.picture.arrows.items) }
        ensures intact { OnOk result (IsIntact self.old) }
    {
        self.put_crash(event, turn);
        self.fill(turn);
        let detail = self.detail::<T>(event, turn.row)?;
        if self.failed {
            return Err(NoMemory);
        }
        let words = event_text(self.alloc, event)?;
        self.picture.rows.push(Row {
            line,
            actor: turn.actor,
            event: words,
            detail,
            notes: self.notes.take()?,
        })?;
        Ok(())
    }

    /// The lanes of these actors, and where they end.
    fn close(&mut self, actors: &[Actor]) -> Result<(), NoMemory> {
        let picture = &mut self.picture;
        picture.losses = losses(self.alloc, actors, &self.flights, &self.crashes)?;
        picture.lanes = lanes(self.alloc, actors, &picture.rows, &picture.losses)?;
        put_last(
            &picture.lanes,
            &self.watched,
            &self.crashes,
            &mut picture.stretches,
        )
    }

    /// The picture of what happened, as SVG.
    pub fn drawing(&mut self) -> Result<String, NoMemory>
        ensures whole { IfOk result (λ s. IsWhole (string_bytes s)) }
        ensures failed { OnOk result (self.old.failed ≡ false) }
    {
        if self.failed {
            return Err(NoMemory);
        }
        let actors = actors(self.alloc, self.config)?;
        self.close(&actors)?;
        draw(self.alloc, &self.picture)
    }
}
