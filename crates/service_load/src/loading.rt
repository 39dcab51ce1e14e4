//! A load over its links.

ghost use Rattle.std.specs.Prelude.{◌≡◌, ◌≤◌, ◌<◌, ◌+◌, ◌^◌, ◌++◌, length, map, IfOk, OnErr};
ghost use Rattle.attached_links.specs.Attaching.{HasRoom, Holds};
ghost use Rattle.outside.specs.Causes.{CountsFor};
ghost use Rattle.service_load.specs.Loads.{IsLoad, Keeps, Plan, Reports};
ghost use Rattle.service_load.specs.declared.errors.LoadError.TheVariants as errors;

use crate::errors::{LoadError, link_fault, port_fault};
use crate::load::Load;
use crate::pattern::Pattern;
use crate::report::Report;
use crate::resends::Resends;
use attached_links::{AttachedLink, Seat, attach_all, detach_all, lost_of};
use client_call::Service;
use desk::Labelled;
use nop_types::{Actor, Bytes, Input, NoMemory, Out, Tick};
use outside::{Clock, Link, Ports};
use std::alloc::Global;
use udp_node::Address;

/// After so many microseconds without an answer a core sends its open requests again.
const RETRY_MICROS: u64 = 200_000;

/// How many ops are submitted in a turn at most.
const MOST_SUBMITS: u32 = 1024;

const _: () = prove!(RETRY_MICROS == 200_000 && MOST_SUBMITS == 1024);

/// A load, and the way out of each of its cores.
pub struct Loading<L> {
    alloc: Global,
    load: Load,
    lanes: Vec<AttachedLink<L, Resends>>,
    time: u64,
}

/// The seat of the client with a number.
fn seat(service: &Service, number: u32) -> Seat<Resends> {
    Seat {
        at: Address {
            base: service.base,
            own: Actor::Client(number),
            config: service.config,
        },
        state: Resends { open_: 0, due: 0 },
    }
}

/// The seats of so many clients.
fn seats(
    alloc: Global,
    service: &Service,
    first: u32,
    clients: u32,
) -> Result<Vec<Seat<Resends>>, NoMemory>
    requires { first + clients ≤ 2 ^ 32 }
    ensures { IfOk result (λ seats. length seats.items ≡ clients) }
{
    let mut seats = Vec::new(alloc);
    for i in 0..clients {
        seats.push(seat(service, first + i))?;
    }
    Ok(seats)
}

/// Opens a load of so many ops of a pattern on a service, through so many clients, the first of
/// which has the number `first`. None of these numbers was used before. It is given back by
/// `close_load`.
pub fn open_load<P: Ports>(
    alloc: Global,
    service: &Service,
    first: u32,
    clients: u32,
    pattern: Pattern,
    count: u64,
    ports: &mut P,
) -> Result<Loading<P::L>, LoadError>
    requires { first + clients ≤ 2 ^ 32 }
    ensures opens { IfOk result (λ l. IsLoad (record {
      config = service.now.config;
      first = first;
      clients = clients;
      ops = pattern;
      count = count;
    }) l.load) }
    ensures clients { IfOk result (λ l. length l.lanes.items ≡ clients) }
    ensures room { IfOk result (λ l. HasRoom (P.attached ports.new) (P.detached ports.new)
        l.lanes.items) }

    // A link is held for each client; after an error all are given back.
    ensures holds { IfOk result (λ l. Holds (P.attached ports.old) (P.detached ports.old)
        (P.attached ports.new) (P.detached ports.new) l.lanes.items) }
    ensures back { OnErr result (P.attached ports.new + length (P.detached ports.old)
        ≡ P.attached ports.old + length (P.detached ports.new)) }
    ensures attaches { CountsFor (P.fault_count ports.old) (P.fault_count ports.new)
        errors.PortFault result }
{
    let load = Load::new(
        alloc,
        service.config,
        first,
        clients as usize,
        pattern,
        count,
    )?;
    let seats = seats(alloc, service, first, clients)?;
    let mut lanes = Vec::new(alloc);
    match attach_all(seats, ports, &mut lanes) {
        Ok(()) => Ok(Loading {
            alloc,
            load,
            lanes,
            time: 0,
        }),
        Err(e) => {
            detach_all(ports, lanes);
            Err(port_fault(e))
        }
    }
}

/// Ends a load, and says what it came to. Its links are given back.
pub fn close_load<P: Ports>(loading: Loading<P::L>, ports: &mut P) -> Result<Report, NoMemory>
    requires { HasRoom (P.attached ports.old) (P.detached ports.old) loading.lanes.items }
    ensures reports { IfOk result (λ r. (plan : Plan) → IsLoad plan loading.load
        → Reports plan r) }
    ensures detached { P.detached ports.new
        ≡ P.detached ports.old ++ map (λ x. x.link) loading.lanes.items }
    ensures attached { P.attached ports.new ≡ P.attached ports.old }
{
    let Loading {
        alloc: _alloc,
        load,
        lanes,
        time: _time,
    } = loading;
    let lost = lost_of(&lanes);
    detach_all(ports, lanes);
    load.report(lost)
}

/// Carries out what a core gave. Its requests are sent again from `due` on, unless one is submitted
/// or answered before.
fn carry_out<L: Link>(
    lane: &mut AttachedLink<L, Resends>,
    out: &Out,
    due: u64,
) -> Result<(), NoMemory> {
    match out {
        Out::Send(dest, bytes) => lane.send(*dest, bytes.as_slice()),
        Out::Submitted(_) => {
            lane.state.open_ = lane.state.open_.saturating_add(1);
            lane.state.due = due;
            Ok(())
        }
        Out::Accepted { .. } => {
            lane.state.open_ = lane.state.open_.saturating_sub(1);
            lane.state.due = due;
            Ok(())
        }
        _ => Ok(()),
    }
}

impl<L: Link> Loading<L> {
    /// How many ops were answered.
    pub fn answered(&self) -> u64
        ensures { result ≡ length self.now.load.tally.times.items }
    {
        self.load.answered()
    }

    /// Whether each op was answered.
    fn is_done(&self) -> bool {
        self.load.answered() >= self.load.count
    }

    /// Carries out what a core gave.
    fn carry_out(&mut self, told: &Labelled) -> Result<(), NoMemory>
        ensures load { self.new.load ≡ self.old.load }
        ensures lanes { length self.new.lanes.items ≡ length self.old.lanes.items }
    {
        let due = self.time.saturating_add(RETRY_MICROS);
        if told.core >= self.lanes.len() {
            return Ok(());
        }
        let lane = &mut self.lanes[told.core];
        carry_out(lane, &told.out, due)
    }

    /// Carries out what the cores gave.
    fn carry_out_all(&mut self, told: &[Labelled]) -> Result<(), NoMemory>
        ensures load { self.new.load ≡ self.old.load }
        ensures lanes { length self.new.lanes.items ≡ length self.old.lanes.items }
    {
        for one in told {
            if let Err(e) = self.carry_out(one) {
                return Err(e);
            }
        }
        Ok(())
    }

    /// Takes the next op.
    #[tactic(auto, using(crate::proofs::LoadLemmas::keeps_all))]
    fn take_next(&mut self) -> Result<(), LoadError>
        requires { self.old.load.desk.state.taken < self.old.load.count }
        ensures keeps { Keeps self.old.load self.new.load result }
        ensures lanes { length self.new.lanes.items ≡ length self.old.lanes.items }
    {
        let told = self.load.take_next(self.time)?;
        self.carry_out_all(&told)?;
        Ok(())
    }

    /// An input comes to the core at a place.
    #[tactic(auto, using(crate::proofs::LoadLemmas::keeps_all))]
    fn comes(&mut self, core: usize, input: Input<'_>) -> Result<(), LoadError>
        ensures keeps { Keeps self.old.load self.new.load result }
        ensures lanes { length self.new.lanes.items ≡ length self.old.lanes.items }
    {
        let told = self.load.comes(core, input, self.time)?;
        self.carry_out_all(&told)?;
        Ok(())
    }

    /// Takes ops, as long as the cores have room for one more.
    #[tactic(auto, using(crate::proofs::LoadLemmas::keeps_all))]
    fn take_ops(&mut self) -> Result<(), LoadError>
        ensures keeps { Keeps self.old.load self.new.load result }
        ensures lanes { length self.new.lanes.items ≡ length self.old.lanes.items }
    {
        for _ in 0..MOST_SUBMITS {
            if !self.load.wants_op() {
                return Ok(());
            }
            if let Err(e) = self.take_next() {
                return Err(e);
            }
        }
        Ok(())
    }

    /// Whether a core sends its open requests again now; then the next time is a while ahead.
    fn is_due(&mut self, core: usize) -> bool
        ensures load { self.new.load ≡ self.old.load }
        ensures lanes { length self.new.lanes.items ≡ length self.old.lanes.items }
    {
        if core >= self.lanes.len() {
            return false;
        }
        let now = self.time;
        let lane = &mut self.lanes[core];
        if lane.state.open_ == 0 || now < lane.state.due {
            return false;
        }
        lane.state.due = now.saturating_add(RETRY_MICROS);
        true
    }

    /// The next datagram of a core, if an answer to one of its requests is awaited.
    fn poll(&mut self, core: usize) -> Result<Option<Bytes>, LoadError>
        ensures load { self.new.load ≡ self.old.load }
        ensures lanes { length self.new.lanes.items ≡ length self.old.lanes.items }
    {
        if core >= self.lanes.len() {
            return Ok(None);
        }
        let lane = &mut self.lanes[core];
        if lane.state.open_ == 0 {
            return Ok(None);
        }
        match lane.poll() {
            Ok(datagram) => Ok(datagram),
            Err(e) => Err(link_fault(e)),
        }
    }

    /// A core sends its open requests again, where it is time for that.
    #[tactic(auto, using(crate::proofs::LoadLemmas::keeps_all))]
    fn retry(&mut self, core: usize) -> Result<(), LoadError>
        ensures keeps { Keeps self.old.load self.new.load result }
        ensures lanes { length self.new.lanes.items ≡ length self.old.lanes.items }
    {
        if self.is_due(core) {
            self.comes(core, Input::Tick(Tick::Retry))
        } else {
            Ok(())
        }
    }

    /// A core takes a datagram, if one came.
    #[tactic(auto, using(crate::proofs::LoadLemmas::keeps_all))]
    fn take_datagram(&mut self, core: usize) -> Result<(), LoadError>
        ensures keeps { Keeps self.old.load self.new.load result }
        ensures lanes { length self.new.lanes.items ≡ length self.old.lanes.items }
    {
        match self.poll(core) {
            Ok(Some(datagram)) => self.comes(core, Input::Packet(datagram.as_slice())),
            Ok(None) => Ok(()),
            Err(e) => Err(e),
        }
    }

    /// A core's turn.
    #[tactic(auto, using(crate::proofs::LoadLemmas::keeps_all))]
    fn serve(&mut self, core: usize) -> Result<(), LoadError>
        ensures keeps { Keeps self.old.load self.new.load result }
        ensures lanes { length self.new.lanes.items ≡ length self.old.lanes.items }
    {
        if let Err(e) = self.retry(core) {
            return Err(e);
        }
        self.take_datagram(core)
    }

    /// The turns of all cores.
    #[tactic(auto, using(crate::proofs::LoadLemmas::keeps_all))]
    fn serve_all(&mut self) -> Result<(), LoadError>
        ensures keeps { Keeps self.old.load self.new.load result }
        ensures lanes { length self.new.lanes.items ≡ length self.old.lanes.items }
    {
        for core in 0..self.lanes.len() {
            if let Err(e) = self.serve(core) {
                return Err(e);
            }
        }
        Ok(())
    }

    /// A turn: ops are submitted, and what comes is taken.
    #[tactic(auto, using(crate::proofs::LoadLemmas::keeps_all))]
    fn take_turn(&mut self, now: u64) -> Result<(), LoadError>
        ensures keeps { Keeps self.old.load self.new.load result }
        ensures lanes { length self.new.lanes.items ≡ length self.old.lanes.items }
    {
        self.time = self.time.max(now);
        if let Err(e) = self.take_ops() {
            return Err(e);
        }
        self.serve_all()
    }

    /// Takes turns until each op is answered or so many microseconds are over, and at most so many
    /// turns. Whether each op is answered. After an error the load is over.
    #[tactic(auto, using(crate::proofs::LoadLemmas::keeps_all))]
    pub fn take_turns<C: Clock>(
        &mut self,
        micros: u64,
        turns: u64,
        clock: &mut C,
    ) -> Result<bool, LoadError>
        ensures keeps { Keeps self.old.load self.new.load result }
        ensures lanes { length self.new.lanes.items ≡ length self.old.lanes.items }
    {
        let end = clock.now().saturating_add(micros);
        for _ in 0..turns {
            let now = clock.now();
            if self.is_done() || end <= now {
                return Ok(self.is_done());
            }
            if let Err(e) = self.take_turn(now) {
                return Err(e);
            }
        }
        Ok(self.is_done())
    }
}
