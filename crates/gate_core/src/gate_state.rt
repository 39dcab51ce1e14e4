//! What the gateway keeps, and its steps.

ghost use Rattle.std.specs.Prelude.{◌≡◌, ◌≤◌, ◌+◌, ◌^◌, ◌==◌, ◌∷◌, ◌++◌, [], None, Some};
ghost use Rattle.std.specs.Prelude.{option_map, IfOk, OnOk};
ghost use Rattle.std.specs.FinMap as finite;
ghost use Rattle.nop_types.specs.Given.{given};
ghost use Rattle.resp.specs.Replies.{reply_bytes};
ghost use Rattle.kv_resp.specs.Table as table;
ghost use Rattle.kv_resp.specs.Table.{asked};
ghost use Rattle.gate_core.specs.Gates.{answer, ask, ask_read, begin_read, busy, came_of, comes, demanded, end_read};
ghost use Rattle.gate_core.specs.Gates.{ask_with, idle_op, left_by, left_of};
ghost use Rattle.gate_core.specs.Gates.{near_user, next, read_from};
ghost use Rattle.gate_core.specs.Gates.{no_observers, no_request, opened, opening, others_than, read};
ghost use Rattle.gate_core.specs.Gates.{reassign, requested, sent_to, session_of, slot_in, tell};
ghost use Rattle.gate_core.specs.Gates.{looked, tell_all, too_many, too_much, user_event, with_turn};
ghost use Rattle.gate_core.specs.Gates.{without_reader, HasBytes};
ghost use Rattle.gate_core.specs.declared.act.Act.TheVariants as acts_are;

use crate::act::{Act, Event};
use crate::in_flight::{
    answer_session, begin, end_reading, reads_at, reply_if_fresh, slot_in, wait_again,
};
use crate::limits::{MAX_USERS, MAX_WAITING_BYTES};
use crate::near::{NearAnswer, hear, look};
use crate::replying::{put_act, put_answer, put_end};
use crate::session::{Asked, InFlight, Reading, Session, UnderWay};
use crate::tables::{Owners, Readers, Sessions};
use crate::waiting::Waiting;
use crate::watched::{put_info, take_turn};
use desk::{Desk, DeskError, Labelled};
use kv_host::{GET, KvHost};
use kv_resp::{Demand, Form, asked};
use nop_types::{Bytes, Config, Input, Key, NoMemory, Op, Out, Tick};
use observer::Observer;
use resp::{Parsed, Reply, Request};
use std::alloc::Global;
use users::UserEvent;
use watching::Watch;

/// The desk, the users that are connected, whose the tickets are, for whom cores read, how many
/// observers may be asked, the least number of a user to come, and the watch and the near observer,
/// if there are these.
#[derive(Drop)]
pub struct GateState {
    pub desk: Desk,
    pub sessions: Sessions,
    pub owners: Owners,
    pub readers: Readers,
    pub observers: u8,
    pub next_user: u64,
    pub watch: Option<Watch>,
    pub near: Option<Observer<KvHost>>,
}

/// What is replied to a user that is one too many.
fn too_many<'a>() -> Reply<'a>
    ensures { reply_bytes result ≡ too_many }
{
    Reply::Error("ERR max number of clients reached")
}

/// What is replied where more bytes wait than may.
fn too_much<'a>() -> Reply<'a>
    ensures { reply_bytes result ≡ too_much }
{
    Reply::Error("ERR too many requests wait")
}

/// What is replied to bytes that begin no request.
fn no_request<'a>() -> Reply<'a>
    ensures { reply_bytes result ≡ no_request }
{
    Reply::Error("ERR Protocol error")
}

/// What is replied to a request for whose op there is no place.
fn busy<'a>() -> Reply<'a>
    ensures { reply_bytes result ≡ busy }
{
    Reply::Error("ERR too many ops wait")
}

/// What is replied to a read where there are no observers.
fn no_observers<'a>() -> Reply<'a>
    ensures { reply_bytes result ≡ no_observers }
{
    Reply::Error("ERR no observers to read at")
}

/// How many of so many observers may be asked: at the place of the watch there is none.
fn others_than(watch: &Option<Watch>, observers: u8) -> u8
    ensures { result ≡ others_than watch.now observers }
{
    match watch {
        Some(_) => observers.saturating_sub(1),
        None => observers,
    }
}

/// The datagram that an input is; no bytes of any other one.
fn came_of(input: Input<'_>) -> &[u8]
    ensures { result.now ≡ came_of (given input.entry) }
{
    match input {
        Input::Packet(bytes) => bytes,
        _ => &[],
    }
}

/// The op that the gateway asks for itself: the value of the key `.`.
fn idle_op(alloc: Global) -> Result<Op, NoMemory>
    ensures { IfOk result (λ op. op ≡ idle_op) }
{
    Op::new(alloc, &[GET, 0, 1, b'.'])
}

/// A user is replied to, and its connection ends.
fn end(
    sessions: &mut Sessions,
    alloc: Global,
    user: u64,
    reply: Reply<'_>,
    acts: &mut Vec<Act>,
) -> Result<(), NoMemory>
    ensures sessions { sessions.new ≡ finite.remove sessions.old user }
    ensures acts { OnOk result (acts.new.items ≡ acts.old.items
        ++ acts_are.Reply user (reply_bytes reply.entry) ∷ acts_are.Close user ∷ []) }
{
    let _session = sessions.take(user);
    put_end(alloc, user, reply, acts)
}

impl GateState {
    /// A gateway without users, whose cores have the numbers from `first` on. None of these numbers
    /// was used before. Where it has a watch, that is at the place of one of the observers, and so
    /// is the near observer, where it has one.
    pub fn new(
        alloc: Global,
        config: Config,
        first: u32,
        count: usize,
        watch: Option<Watch>,
        near: Option<Observer<KvHost>>,
    ) -> Result<GateState, NoMemory>
        requires { first + count ≤ 2 ^ 32 }
        ensures { IfOk result (λ g. g ≡ opening config first count watch near) }
    {
        Ok(GateState {
            desk: Desk::new(alloc, config, first, count)?,
            sessions: Sessions::new(alloc),
            owners: Owners::new(alloc),
            readers: Readers::new(alloc),
            observers: others_than(&watch, config.observers()),
            next_user: 0,
            watch,
            near,
        })
    }

    /// No ticket waits for its answer.
    pub fn is_idle(&self) -> bool
        ensures { result ≡ (finite.len self.now.owners == 0) }
    {
        self.owners.len() == 0
    }

    /// The user of a ticket is told its result, if it is still there.
    #[tactic(auto, using(crate::proofs::Entries::put_back))]
    fn answer(
        &mut self,
        alloc: Global,
        slot: u32,
        ticket: u64,
        bytes: &[u8],
        acts: &mut Vec<Act>,
    ) -> Result<(), NoMemory>
        ensures state { OnOk result (self.new
            ≡ (answer (Some ticket) self.old slot bytes.now).0) }
        ensures acts { OnOk result (acts.new.items
            ≡ acts.old.items ++ (answer (Some ticket) self.old slot bytes.now).1) }
    {
        let Some(Some(user)) = self.owners.take(ticket) else {
            return Ok(());
        };
        let Some(session) = self.sessions.take(user) else {
            return Ok(());
        };
        answer_session(
            &mut self.sessions,
            alloc,
            user,
            slot,
            session,
            ticket,
            bytes,
            acts,
        )
    }

    /// A core accepted the result of its request with this id, for whom the ticket says.
    fn accept(
        &mut self,
        alloc: Global,
        core: usize,
        id: u64,
        came: &[u8],
        ticket: Option<u64>,
        bytes: &[u8],
        acts: &mut Vec<Act>,
    ) -> Result<(), NoMemory>
        ensures state { OnOk result (self.new
            ≡ (answer ticket self.old (slot_in came.now) bytes.now).0) }
        ensures acts { OnOk result (acts.new.items ≡ acts.old.items
            ++ acts_are.Accepted core id ∷ (answer ticket self.old (slot_in came.now) bytes.now).1) }
    {
        put_act(acts, Act::Accepted { core, id })?;
        let Some(ticket) = ticket else {
            return Ok(());
        };
        let slot = slot_in(alloc, came)?;
        self.answer(alloc, slot, ticket, bytes, acts)
    }

    /// A core asked an observer for a key, for the user that it reads for.
    #[tactic(auto, using(crate::proofs::Entries::put_back))]
    fn begin_read(&mut self, way: UnderWay, key: &Key, acts: &mut Vec<Act>) -> Result<(), NoMemory>
        ensures state { OnOk result (self.new
            ≡ begin_read (finite.get self.old.readers way.core) self.old way key.now) }
        ensures acts { OnOk result (acts.new.items
            ≡ acts.old.items ++ acts_are.Reading way.core way.id ∷ []) }
    {
        put_act(
            acts,
            Act::Reading {
                core: way.core,
                id: way.id,
            },
        )?;
        let Some(user) = self.readers.get(way.core) else {
            return Ok(());
        };
        let Some(session) = self.sessions.take(user) else {
            return Ok(());
        };
        let mut session = session;
        begin(&mut session.asked, way, key);
        self.sessions.put(user, session)
    }

    /// A core was answered its read, for the user that it reads for.
    #[tactic(auto, using(crate::proofs::Entries::put_back))]
    fn end_read(
        &mut self,
        alloc: Global,
        way: UnderWay,
        position: u32,
        bytes: &[u8],
        acts: &mut Vec<Act>,
    ) -> Result<(), NoMemory>
        ensures state { OnOk result (self.new ≡ (end_read (finite.get self.old.readers way.core)
            (without_reader self.old way.core) position way bytes.now).0) }
        ensures acts { OnOk result (acts.new.items ≡ acts.old.items
            ++ acts_are.Answered way.core way.id
            ∷ (end_read (finite.get self.old.readers way.core)
            (without_reader self.old way.core) position way bytes.now).1) }
    {
        put_act(
            acts,
            Act::Answered {
                core: way.core,
                id: way.id,
            },
        )?;
        let Some(user) = self.readers.take(way.core) else {
            return Ok(());
        };
        let Some(session) = self.sessions.take(user) else {
            return Ok(());
        };
        end_reading(
            &mut self.sessions,
            alloc,
            user,
            position,
            session,
            way,
            bytes,
            acts,
        )
    }

    /// Something that the desk told, where this datagram came.
    fn tell(
        &mut self,
        alloc: Global,
        came: &[u8],
        told: Labelled,
        acts: &mut Vec<Act>,
    ) -> Result<(), NoMemory>
        ensures state { OnOk result (self.new ≡ (tell came.now told self.old).0) }
        ensures acts { OnOk result (acts.new.items
            ≡ acts.old.items ++ (tell came.now told self.old).1) }
    {
        let Labelled { core, ticket, out } = told;
        match out {
            Out::Send(dest, bytes) => put_act(acts, Act::Send { core, dest, bytes }),
            Out::Submitted(request) => put_act(
                acts,
                Act::Submitted {
                    core,
                    id: request.id,
                },
            ),
            Out::Accepted { id, result, .. } => {
                self.accept(alloc, core, id, came, ticket, result.as_slice(), acts)
            }
            Out::Reading {
                id,
                observer,
                key,
                ..
            } => self.begin_read(UnderWay { core, id, observer }, &key, acts),
            Out::Answered {
                id,
                observer,
                position,
                result,
                ..
            } => {
                let way = UnderWay { core, id, observer };
                self.end_read(alloc, way, position, result.as_slice(), acts)
            }
            _ => Ok(()),
        }
    }

    fn tell_all(
        &mut self,
        alloc: Global,
        came: &[u8],
        told: Vec<Labelled>,
        acts: &mut Vec<Act>,
    ) -> Result<(), NoMemory>
        ensures state { OnOk result (self.new ≡ (tell_all came.now told.items self.old).0) }
        ensures acts { OnOk result (acts.new.items
            ≡ acts.old.items ++ (tell_all came.now told.items self.old).1) }
    {
        for one in told {
            self.tell(alloc, came, one, acts)?;
        }
        Ok(())
    }

    /// An input comes to a core.
    fn comes(
        &mut self,
        alloc: Global,
        core: usize,
        input: Input<'_>,
        acts: &mut Vec<Act>,
    ) -> Result<(), NoMemory>
        ensures state { OnOk result (self.new ≡ (comes self.old core (given input.entry)).0) }
        ensures acts { OnOk result (acts.new.items
            ≡ acts.old.items ++ (comes self.old core (given input.entry)).1) }
    {
        let told = self.desk.comes(core, input)?;
        self.tell_all(alloc, came_of(input), told, acts)
    }

    /// The op of a user's request.
    fn execute(
        &mut self,
        alloc: Global,
        user: u64,
        session: Session,
        op: Op,
        form: Form,
        acts: &mut Vec<Act>,
    ) -> Result<(), NoMemory>
        ensures state { OnOk result (self.new
            ≡ (demanded self.old user session (table.Execute op form)).0) }
        ensures acts { OnOk result (acts.new.items ≡ acts.old.items
            ++ (demanded self.old user session (table.Execute op form)).1) }
    {
        match self.desk.take(op) {
            Ok((ticket, told)) => {
                let asked = InFlight::Op(Asked { ticket, form });
                self.sessions.put(user, session.with(asked))?;
                self.owners.put(ticket, Some(user))?;
                self.tell_all(alloc, &[], told, acts)
            }
            Err(DeskError::Full) => {
                self.sessions.put(user, session)?;
                put_answer(alloc, user, busy(), acts)
            }
            Err(DeskError::NoMemory) => Err(NoMemory),
        }
    }

    /// The read of a user's request, which waits for a core, where there are observers.
    fn read_far(
        &mut self,
        alloc: Global,
        user: u64,
        session: Session,
        key: Key,
        acts: &mut Vec<Act>,
    ) -> Result<(), NoMemory>
        ensures state { OnOk result (self.new ≡ (read_from None self.old user session key).0) }
        ensures acts { OnOk result (acts.new.items
            ≡ acts.old.items ++ (read_from None self.old user session key).1) }
    {
        if self.observers == 0 {
            self.sessions.put(user, session)?;
            return put_answer(alloc, user, no_observers(), acts);
        }
        let asked = InFlight::Read(Reading {
            key,
            under_way: None,
        });
        self.sessions.put(user, session.with(asked))?;
        put_act(acts, Act::Waits { user, again: false })
    }

    /// The read of a user's request.
    fn read_at(
        &mut self,
        alloc: Global,
        user: u64,
        session: Session,
        key: Key,
        acts: &mut Vec<Act>,
    ) -> Result<(), NoMemory>
        ensures state { OnOk result (self.new
            ≡ (demanded self.old user session (table.ReadAt key)).0) }
        ensures acts { OnOk result (acts.new.items ≡ acts.old.items
            ++ (demanded self.old user session (table.ReadAt key)).1) }
    {
        match look(&mut self.near, &key)? {
            Some(answer) => {
                let asked = InFlight::Read(Reading {
                    key,
                    under_way: None,
                });
                let session = session.with(asked);
                let result = answer.result.as_slice();
                reply_if_fresh(
                    &mut self.sessions,
                    alloc,
                    user,
                    answer.position,
                    session,
                    result,
                    acts,
                )
            }
            None => self.read_far(alloc, user, session, key, acts),
        }
    }

    /// What a user's request asks for.
    fn demand(
        &mut self,
        alloc: Global,
        user: u64,
        session: Session,
        arguments: &[Bytes],
        acts: &mut Vec<Act>,
    ) -> Result<(), NoMemory>
        ensures state { OnOk result (self.new
            ≡ (demanded self.old user session (asked arguments.now)).0) }
        ensures acts { OnOk result (acts.new.items
            ≡ acts.old.items ++ (demanded self.old user session (asked arguments.now)).1) }
    {
        match asked(alloc, arguments)? {
            Demand::Execute(op, form) => self.execute(alloc, user, session, op, form, acts),
            Demand::ReadAt(key) => self.read_at(alloc, user, session, key, acts),
            Demand::Info => {
                self.sessions.put(user, session)?;
                put_info(alloc, user, &self.watch, acts)
            }
            Demand::Answer(reply) => {
                self.sessions.put(user, session)?;
                put_answer(alloc, user, reply, acts)
            }
            Demand::End(reply) => end(&mut self.sessions, alloc, user, reply, acts),
        }
    }

    /// A request of a user, whose bytes begin with it.
    #[tactic(auto, using(crate::proofs::Taking::demanded_taken))]
    fn take_request(
        &mut self,
        alloc: Global,
        user: u64,
        request: &Request,
        acts: &mut Vec<Act>,
    ) -> Result<(), NoMemory>
        requires { HasBytes (session_of self.old user) request.now.len }
        ensures state { OnOk result (self.new
            ≡ (requested (session_of self.old user) self.old user request.now).0) }
        ensures acts { OnOk result (acts.new.items ≡ acts.old.items
            ++ (requested (session_of self.old user) self.old user request.now).1) }
    {
        let Some(session) = self.sessions.take(user) else {
            return Ok(());
        };
        let mut session = session;
        session.waiting.pass(request.len);
        self.demand(alloc, user, session, &request.arguments, acts)
    }

    /// The next request of a user, where none of it is in flight.
    fn read(&mut self, alloc: Global, user: u64, acts: &mut Vec<Act>) -> Result<(), NoMemory>
        ensures state { OnOk result (self.new ≡ (read self.old user).0) }
        ensures acts { OnOk result (acts.new.items ≡ acts.old.items ++ (read self.old user).1) }
    {
        match self.sessions.next_request(alloc, user)? {
            Some(Parsed::Complete(request)) => self.take_request(alloc, user, &request, acts),
            Some(Parsed::Incomplete) | None => Ok(()),
            Some(Parsed::Broken(_)) => end(&mut self.sessions, alloc, user, no_request(), acts),
        }
    }

    /// A session is over: what is in flight of it, if something is, is for nobody.
    fn leave(&mut self, session: Session)
        ensures { self.new ≡ left_by session.asked self.old }
    {
        if let Some(InFlight::Op(asked)) = session.asked {
            self.desk.leave(asked.ticket);
            let _owner = self.owners.take(asked.ticket);
        }
    }

    fn opened(&mut self, alloc: Global, user: u64, acts: &mut Vec<Act>) -> Result<(), NoMemory>
        ensures state { OnOk result (self.new ≡ (opened self.old user).0) }
        ensures acts { OnOk result (acts.new.items
            ≡ acts.old.items ++ (opened self.old user).1) }
    {
        if user < self.next_user || user == u64::MAX {
            return Ok(());
        }
        self.next_user = user + 1;
        if self.sessions.len() >= MAX_USERS {
            return put_end(alloc, user, too_many(), acts);
        }
        self.sessions.put(
            user,
            Session {
                waiting: Waiting::new(alloc),
                asked: None,
                seen: 0,
            },
        )
    }

    #[tactic(auto, using(crate::proofs::Entries::put_back, crate::proofs::Taking::left_taken))]
    fn sent(
        &mut self,
        alloc: Global,
        user: u64,
        bytes: &[u8],
        acts: &mut Vec<Act>,
    ) -> Result<(), NoMemory>
        ensures state { OnOk result (self.new
            ≡ (sent_to (session_of self.old user) self.old user bytes.now).0) }
        ensures acts { OnOk result (acts.new.items ≡ acts.old.items
            ++ (sent_to (session_of self.old user) self.old user bytes.now).1) }
    {
        let Some(session) = self.sessions.take(user) else {
            return Ok(());
        };
        let mut session = session;
        if MAX_WAITING_BYTES < session.waiting.len() + bytes.len() {
            self.leave(session);
            return put_end(alloc, user, too_much(), acts);
        }
        session.waiting.push(bytes)?;
        self.sessions.put(user, session)
    }

    #[tactic(auto, using(crate::proofs::Taking::left_taken))]
    fn left(&mut self, user: u64)
        ensures { self.new ≡ (left_of (session_of self.old user) self.old user).0 }
    {
        if let Some(session) = self.sessions.take(user) {
            self.leave(session);
        }
    }

    fn user_event(
        &mut self,
        alloc: Global,
        event: UserEvent,
        acts: &mut Vec<Act>,
    ) -> Result<(), NoMemory>
        ensures state { OnOk result (self.new ≡ (user_event self.old event).0) }
        ensures acts { OnOk result (acts.new.items
            ≡ acts.old.items ++ (user_event self.old event).1) }
    {
        match event {
            UserEvent::Opened { user } => self.opened(alloc, user, acts),
            UserEvent::Sent { user, bytes } => self.sent(alloc, user, bytes.as_slice(), acts),
            UserEvent::Left { user } => {
                self.left(user);
                Ok(())
            }
        }
    }

    /// The gateway asks for something itself, where there is a place for it.
    fn ask(&mut self, alloc: Global, acts: &mut Vec<Act>) -> Result<(), NoMemory>
        ensures state { OnOk result (self.new ≡ (ask self.old).0) }
        ensures acts { OnOk result (acts.new.items ≡ acts.old.items ++ (ask self.old).1) }
    {
        match self.desk.take(idle_op(alloc)?) {
            Ok((ticket, told)) => {
                self.owners.put(ticket, None)?;
                self.tell_all(alloc, &[], told, acts)
            }
            Err(DeskError::Full) => Ok(()),
            Err(DeskError::NoMemory) => Err(NoMemory),
        }
    }

    /// The near observer was looked at for a user's read in flight.
    #[tactic(auto, using(crate::proofs::Entries::put_back))]
    fn end_near(
        &mut self,
        alloc: Global,
        user: u64,
        answer: &NearAnswer,
        acts: &mut Vec<Act>,
    ) -> Result<(), NoMemory>
        ensures state { OnOk result (self.new
            ≡ (near_user (session_of self.old user) answer.now self.old user).0) }
        ensures acts { OnOk result (acts.new.items ≡ acts.old.items
            ++ (near_user (session_of self.old user) answer.now self.old user).1) }
    {
        let Some(session) = self.sessions.take(user) else {
            return Ok(());
        };
        let result = answer.result.as_slice();
        reply_if_fresh(
            &mut self.sessions,
            alloc,
            user,
            answer.position,
            session,
            result,
            acts,
        )
    }

    /// The key of a user's read is read at the near observer; where there is none, the core at a
    /// place asks an observer.
    fn ask_with(
        &mut self,
        alloc: Global,
        core: usize,
        observer: u8,
        user: u64,
        key: &Key,
        acts: &mut Vec<Act>,
    ) -> Result<(), NoMemory>
        ensures state { OnOk result (self.new
            ≡ (ask_with (looked self.old.near key.now) key.now self.old core observer user).0) }
        ensures acts { OnOk result (acts.new.items ≡ acts.old.items
            ++ (ask_with (looked self.old.near key.now) key.now self.old core observer user).1) }
    {
        match look(&mut self.near, key)? {
            Some(answer) => self.end_near(alloc, user, &answer, acts),
            None => {
                self.readers.put(core, user)?;
                self.comes(alloc, core, Input::Read(observer, key), acts)
            }
        }
    }

    /// A user's read that waits is read at the near observer, or asked for by the core at a place,
    /// where neither has a read under way.
    fn ask_read(
        &mut self,
        alloc: Global,
        core: usize,
        observer: u8,
        user: u64,
        acts: &mut Vec<Act>,
    ) -> Result<(), NoMemory>
        ensures state { OnOk result (self.new ≡ (ask_read self.old core observer user).0) }
        ensures acts { OnOk result (acts.new.items
            ≡ acts.old.items ++ (ask_read self.old core observer user).1) }
    {
        if self.readers.get(core).is_some() {
            return Ok(());
        }
        match self.sessions.key_to_ask(user)? {
            Some(key) => self.ask_with(alloc, core, observer, user, &key, acts),
            None => Ok(()),
        }
    }

    /// The read that the core at a place has under way waits for another one.
    #[tactic(auto, using(crate::proofs::Entries::put_back, crate::proofs::Entries::put_same))]
    fn reassign(&mut self, core: usize, acts: &mut Vec<Act>) -> Result<(), NoMemory>
        ensures state { OnOk result (self.new ≡ (reassign self.old core).0) }
        ensures acts { OnOk result (acts.new.items
            ≡ acts.old.items ++ (reassign self.old core).1) }
    {
        let Some(user) = self.readers.get(core) else {
            return Ok(());
        };
        let Some(session) = self.sessions.take(user) else {
            return Ok(());
        };
        let mut session = session;
        if !reads_at(&session.asked, core) {
            return self.sessions.put(user, session);
        }
        wait_again(&mut session.asked);
        self.sessions.put(user, session)?;
        put_act(acts, Act::Waits { user, again: false })
    }

    /// A turn of the watch, and of the near observer, if there are these.
    fn watch(&mut self, alloc: Global, now: u64, datagram: Option<&Bytes>) -> Result<(), NoMemory>
        ensures { OnOk result (self.new ≡ with_turn self.old
            (record { now = now; datagram = option_map (λ d. d.now) datagram.entry })) }
    {
        take_turn(&mut self.watch, now, datagram)?;
        hear(alloc, &mut self.near, datagram)
    }

    /// A step, and what is done in it. After an error no more steps are taken.
    pub fn step(&mut self, alloc: Global, event: Event, acts: &mut Vec<Act>) -> Result<(), NoMemory>
        ensures state { OnOk result (self.new ≡ (next self.old event).0) }
        ensures acts { OnOk result (acts.new.items ≡ acts.old.items ++ (next self.old event).1) }
    {
        match event {
            Event::Datagram { core, bytes } => {
                self.comes(alloc, core, Input::Packet(bytes.as_slice()), acts)
            }
            Event::Retry { core } => self.comes(alloc, core, Input::Tick(Tick::Retry), acts),
            Event::User(event) => self.user_event(alloc, event, acts),
            Event::Read { user } => self.read(alloc, user, acts),
            Event::Ask {
                core,
                observer,
                user,
            } => self.ask_read(alloc, core, observer, user, acts),
            Event::Reassign { core } => self.reassign(core, acts),
            Event::Watch { now, datagram } => self.watch(alloc, now, datagram.as_ref()),
            Event::Idle => self.ask(alloc, acts),
        }
    }
}
