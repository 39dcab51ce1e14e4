//! What the rows of a trace lead to.

ghost use Rattle.std.specs.Prelude.{◌≡◌, ◌<◌, Some, IfOk};
ghost use Rattle.audit.specs.Auditing.{row_step};
ghost use Rattle.audit.specs.Steps.{Leads, Shows};
ghost use Rattle.audit.specs.declared.limits.TheConstants.{MAX_STEPS};
ghost use Rattle.audit_laws.specs.Audits.{SoFar, gives, goes, starts};
ghost use Rattle.audit_laws.specs.Names.{actor_in};
ghost use Rattle.nop_types.specs.declared.header.Header.{Header};
ghost use Rattle.schedule_text.specs.EventText.{HasLine};
ghost use Rattle.trace_rows.specs.Reading.{row_of};
ghost use Rattle.trace_rows.specs.Rows.{RowFits, TakenFits};
ghost use Rattle.trace_rows.specs.declared.row.Row.TheVariants.{In};
ghost use Rattle.world.specs.WorldSteps.{actor_of, step};

use crate::comparing::says;
use crate::limits::MAX_STEPS;
use crate::missing::Missing;
use crate::names::actor_in;
use crate::row_error::RowError;
use crate::taking::event_of;
use audit_laws::Fault;
use nop_types::{Actor, Header, Host, NoMemory, same_actor};
use schedule_text::{Event, event_line};
use std::alloc::Global;
use trace_rows::{Gave, Name, Row, Taken, read_row};
use trace_text::header_line;
use world::{StepError, World};

/// The world that the rows so far lead to, the outputs of the last step that are still to come and
/// whose step it was, the number of steps, and the schedule of their events.
#[derive(Drop)]
pub struct Progress<H: Host> {
    pub world: World<H>,
    pub missing: Missing,
    pub actor: Actor,
    pub steps: u32,
    pub text: Vec<u8>,
}

impl<H: Host> Progress<H> {
    /// Behind the first line.
    #[tactic(auto, unfolding(printed_runs::specs::Printing::printed))]
    pub fn new(alloc: Global, header: Header) -> Result<Progress<H>, NoMemory>
        ensures { IfOk result (Shows header (starts header.config)) }
    {
        let mut text = Vec::new(alloc);
        header_line(header.form, header.config, &mut text)?;
        Ok(Progress {
            world: World::with_index(alloc, header.config)?,
            missing: Missing::new(alloc),
            actor: Actor::Controller(0),
            steps: 0,
            text,
        })
    }

    /// The event of a step happens, unless the world refuses it.
    fn carry_out(&mut self, actor: Actor, event: &Event) -> Result<(), RowError>
        requires actor { actor_of event.now ≡ actor }
        requires line { HasLine event.now }
        requires room { self.old.steps < MAX_STEPS }
        ensures { (h : Header) (s : SoFar) → Shows h s self.old
            → Leads h (goes s actor event.now (step H.meaning s.world event.now))
            result self.new }
    {
        let gave = match self.world.step_outs(event) {
            Ok(gave) => gave,
            Err(StepError::NoMemory) => return Err(RowError::NoMemory),
            Err(_) => return Err(RowError::Faulty(Fault::Misplaced)),
        };
        event_line(event, &mut self.text)?;
        self.missing = Missing::of(gave);
        self.actor = actor;
        self.steps += 1;
        Ok(())
    }

    /// A step begins with what its actor takes.
    fn take_input(&mut self, alloc: Global, name: Name, taken: Taken) -> Result<(), RowError>
        requires { TakenFits taken }
        ensures { (h : Header) (s : SoFar) → Shows h s self.old
            → Leads h (row_step H.meaning s (Some (In name taken))) result self.new }
    {
        if self.steps >= MAX_STEPS {
            return Err(RowError::Faulty(Fault::Misspelled));
        }
        if !self.missing.is_none() {
            return Err(RowError::Faulty(Fault::Unlike));
        }
        let Some(actor) = actor_in(self.world.config(), name) else {
            return Err(RowError::Faulty(Fault::Misplaced));
        };
        let event = event_of(alloc, &self.world, actor, taken)?;
        self.carry_out(actor, &event)
    }

    /// The next output of the step.
    fn take_output(&mut self, name: Name, gave: &Gave) -> Result<(), RowError>
        ensures { (h : Header) (s : SoFar) → Shows h s self.old
            → Leads h (gives s (actor_in s.world.config name) gave.now s.missing) result self.new }
    {
        let Some(actor) = actor_in(self.world.config(), name) else {
            return Err(RowError::Faulty(Fault::Misplaced));
        };
        let Some(out) = self.missing.next() else {
            return Err(RowError::Faulty(Fault::Unlike));
        };
        if !same_actor(actor, self.actor) || !says(actor, gave, self.actor, out) {
            return Err(RowError::Faulty(Fault::Unlike));
        }
        self.missing.pass();
        Ok(())
    }

    fn take_row(&mut self, alloc: Global, row: Row) -> Result<(), RowError>
        requires { RowFits row }
        ensures { (h : Header) (s : SoFar) → Shows h s self.old
            → Leads h (row_step H.meaning s (Some row)) result self.new }
    {
        match row {
            Row::In(name, taken) => self.take_input(alloc, name, taken),
            Row::Out(name, gave) => self.take_output(name, &gave),
        }
    }

    /// The row that a line is, or that it is none.
    pub fn take_text(&mut self, alloc: Global, text: &[u8]) -> Result<(), RowError>
        ensures { (h : Header) (s : SoFar) → Shows h s self.old
            → Leads h (row_step H.meaning s (row_of text.now)) result self.new }
    {
        match read_row(alloc, text)? {
            Some(row) => self.take_row(alloc, row),
            None => Err(RowError::Faulty(Fault::Misspelled)),
        }
    }
}
