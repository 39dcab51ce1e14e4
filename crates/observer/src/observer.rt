ghost use Rattle.std.specs.Prelude.{◌≡◌, ◌<◌, ◌++◌, [], ◌∷◌, OnOk, OnErr, IfOk, IsErr, true, false};
ghost use Rattle.nop_types.specs.Given.{given};
ghost use Rattle.nop_types.specs.Ranges.{PeerFits, ReadFits};
ghost use Rattle.nop_types.specs.Logs.{Trimmed};
ghost use Rattle.nop_types.specs.declared.limits.TheConstants.{MAX_OBSERVERS};
ghost use Rattle.peer_codec.specs.Reading as peers;
ghost use Rattle.observer.specs.Hearing as hearing;
ghost use Rattle.observer.specs.Known.{IsHearing, hearing_of, observer_of, observing_of};
ghost use Rattle.observer.specs.ObserverSteps.{answer_of, answered, next, opening};
ghost use Rattle.observer.specs.Observing.{position, told};

use crate::synced::SyncedHost;
use fragments::Reassembly;
use nop_types::{
    Actor, Answer, Body, Bytes, Config, Core, Datagram, Dest, Fragment, Host, Input, Key, NoMemory,
    Outbox, Peer, Read, Tick, leader_of,
};
use oum_codec::{read_datagram, send_datagram};
use peer_codec::{BadPeer, decode_peer};
use std::alloc::Global;
use std::marker::Model;

/// What an observer knows, and the fragments of messages that are not complete, while it has not failed.
#[derive(Drop)]
struct ObserverParts<H: Host> {
    alloc: Global,
    config: Config,
    number: u8,
    synced: SyncedHost<H>,
    reassembly: Reassembly,
}

/// An observer of a service. It follows what leaders synchronise, and answers reads from there.
pub struct Observer<H: Host> {
    failed: bool,
    node: ObserverParts<H>,
}

// By hand, so that a crate with an observer proves nothing on how its parts are dropped.
impl<H: Host> Drop for Observer<H> {
    fn drop(self) {
        let Observer {
            failed: _failed,
            node: _node,
        } = self;
    }
}

impl<H: Host> Model for Observer<H> {
    ghost use Rattle.std.specs.Prelude.{◌≡◌, false};
    ghost use Rattle.nop_types.specs.Machine.{Machine};
    ghost use Rattle.observer.specs.ObserverSteps as steps;

    ghost Value = { Machine steps.Observer };

    ghost use Rattle.observer.specs.Known.{IsHearing, observer_of};

    ghost view = { λ o. record { failed = o.failed; state = observer_of H.Host o.node } };

    ghost invariant = { λ o. o.failed ≡ false → IsHearing H.Host o.node };
}

impl<H: Host> ObserverParts<H> {
    /// An observer that knows nothing yet.
    fn new(alloc: Global, config: Config, number: u8) -> Result<ObserverParts<H>, NoMemory>
        requires { number < MAX_OBSERVERS }
        ensures ready { IfOk result (λ n. IsHearing H.Host n) }
        ensures state { IfOk result (λ n. observer_of H.Host n ≡ opening config number) }
    {
        let synced = SyncedHost::new(alloc)?;
        let reassembly = Reassembly::new(alloc, config.replicas())?;
        Ok(ObserverParts {
            alloc,
            config,
            number,
            synced,
            reassembly,
        })
    }

    /// A message comes: of the leader of its view, it is its row; else nothing.
    fn tell(&mut self, message: Peer) -> Result<(), NoMemory>
        requires ready { IsHearing H.Host self.old }
        requires fits { PeerFits message }
        ensures ready { OnOk result (IsHearing H.Host self.new) }
        ensures config { self.new.config ≡ self.old.config }
        ensures number { self.new.number ≡ self.old.number }
        ensures state { OnOk result (hearing_of H.Host self.new
            ≡ record (hearing_of H.Host self.old) {
              state = told H.meaning Trimmed self.old.config.replicas
                  (observing_of H.Host self.old.synced) message;
            }) }
    {
        let Peer { sender, view, body } = message;
        if sender != leader_of(view, self.config.replicas()) {
            return Ok(());
        }
        match body {
            Body::SyncPrepare(log) => self.synced.prepare(view, log),
            Body::SyncCommit(len) => self.synced.commit(view, len),
            _ => Ok(()),
        }
    }

    /// Bytes that were joined of the fragments of a replica.
    fn joined(&mut self, replica: u8, bytes: &Bytes) -> Result<(), NoMemory>
        requires ready { IsHearing H.Host self.old }
        ensures ready { OnOk result (IsHearing H.Host self.new) }
        ensures config { self.new.config ≡ self.old.config }
        ensures number { self.new.number ≡ self.old.number }
        ensures state { OnOk result (hearing_of H.Host self.new
            ≡ hearing.read H.meaning self.old.config.replicas (hearing_of H.Host self.old)
            replica (peers.reading bytes.now)) }
    {
        match decode_peer(self.alloc, bytes.as_slice()) {
            Ok(message) => {
                if message.sender != replica {
                    return Ok(());
                }
                self.tell(message)
            }
            Err(BadPeer::NoMemory) => Err(NoMemory),
            Err(_) => Ok(()),
        }
    }

    /// A fragment comes, of a replica or else for nobody.
    fn fragment(&mut self, fragment: &Fragment) -> Result<(), NoMemory>
        requires ready { IsHearing H.Host self.old }
        ensures ready { OnOk result (IsHearing H.Host self.new) }
        ensures config { self.new.config ≡ self.old.config }
        ensures number { self.new.number ≡ self.old.number }
        ensures state { OnOk result (hearing_of H.Host self.new
            ≡ hearing.fragment H.meaning self.old.config.replicas
            (hearing_of H.Host self.old) fragment.now) }
    {
        if fragment.replica >= self.config.replicas() {
            return Ok(());
        }
        match self.reassembly.take(fragment)? {
            Some(bytes) => self.joined(fragment.replica, &bytes),
            None => Ok(()),
        }
    }

    /// A read is answered from the position; what is executed stays as it is.
    fn answer(&mut self, read: &Read, out: &mut Outbox) -> Result<(), NoMemory>
        requires ready { IsHearing H.Host self.old }
        requires fits { ReadFits read.now }
        ensures ready { OnOk result (IsHearing H.Host self.new) }
        ensures state { OnOk result (observer_of H.Host self.new ≡ observer_of H.Host self.old) }
        ensures out { OnOk result (out.new
            ≡ out.old ++ answered H.meaning (observer_of H.Host self.old) read.now ∷ []) }
        ensures err { OnErr result (out.new ≡ out.old) }
    {
        let answer = Answer {
            observer: self.number,
            position: self.synced.position(),
            client: read.client,
            id: read.id,
            result: self.synced.read(&read.key)?,
        };
        let dest = Dest::One(Actor::Client(read.client));
        send_datagram(self.alloc, dest, &Datagram::Answer(answer), out)
    }

    /// One step, which may leave anything where memory runs out.
    #[tactic(auto, unfolding(crate::specs::ObserverSteps::next))]
    fn act(&mut self, input: Input<'_>, out: &mut Outbox) -> Result<(), NoMemory>
        requires { IsHearing H.Host self.old }
        ensures ready { OnOk result (IsHearing H.Host self.new) }
        ensures state { OnOk result (observer_of H.Host self.new
            ≡ (next H.meaning (observer_of H.Host self.old) (given input.entry)).0) }
        ensures out { OnOk result (out.new ≡ out.old
            ++ (next H.meaning (observer_of H.Host self.old) (given input.entry)).1) }
        ensures err { OnErr result (out.new ≡ out.old) }
    {
        let Input::Packet(bytes) = input else {
            return Ok(());
        };
        match read_datagram(self.alloc, bytes)? {
            Some(Datagram::Fragment(fragment)) => self.fragment(&fragment),
            Some(Datagram::Read(read)) => self.answer(&read, out),
            _ => Ok(()),
        }
    }
}

impl<H: Host> Observer<H> {
    pub fn new(alloc: Global, config: Config, number: u8) -> Result<Observer<H>, NoMemory>
        requires { number < MAX_OBSERVERS }
        ensures { IfOk result (λ o. o
            ≡ record { failed = false; state = opening config number }) }
    {
        let node = ObserverParts::new(alloc, config, number)?;
        Ok(Observer {
            failed: false,
            node,
        })
    }

    /// Up to this slot the service is executed.
    pub fn position(&self) -> u32
        ensures { result ≡ position self.now.state.heard.state }
    {
        self.node.synced.position()
    }

    /// What a read of this key is answered now, for who has the observer in its own process.
    /// Nothing changes.
    pub fn answer_of(&mut self, key: &Key) -> Result<Bytes, NoMemory>
        ensures answer { IfOk result (λ bytes. bytes
            ≡ answer_of H.meaning self.old.state key.now) }
        ensures same { self.new ≡ self.old }
        ensures for_good { self.old.failed ≡ true → IsErr result }
    {
        if self.failed {
            return Err(NoMemory);
        }
        self.node.synced.read(key)
    }
}

impl<H: Host> Core for Observer<H> {
    ghost use Rattle.std.specs.Prelude.{[], false};
    ghost use Rattle.observer.specs.ObserverSteps as steps;
    ghost use Rattle.observer.specs.ObserverSteps.{next};

    ghost State = { steps.Observer };

    ghost state = { λ o. o.state };

    ghost has_failed = { λ o. o.failed };

    ghost next = { next H.meaning };

    ghost timers = { [] };

    ghost is_done = { λ _. false };

    fn step(&mut self, input: Input<'_>, out: &mut Outbox) -> Result<(), NoMemory> {
        if self.failed {
            return Err(NoMemory);
        }
        let acted = self.node.act(input, out);
        if acted.is_err() {
            self.failed = true;
        }
        acted
    }

    fn timer(&self, _i: u8) -> Option<(Tick, u64)> {
        None
    }

    fn done(&self) -> bool {
        false
    }
}
