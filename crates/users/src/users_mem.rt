ghost use Rattle.std.specs.Prelude.{◌≡◌, ◌≤◌, ◌++◌, ◌∷◌, [], drop, length, All, IfOk, IfSome, OnOk, OnErr, IsErrOf, Some, Ok};
ghost use Rattle.outside.specs.Causes.{count_after};
ghost use Rattle.outside.specs.Observed.{Adds, Stays};
ghost use Rattle.outside.specs.declared.errors.DeviceError.TheVariants as errors;
ghost use Rattle.users.specs.Events.{Gives, IsShort, Traces, next_answer, result_of};
ghost use Rattle.users.specs.Memory.{MayCome};
ghost use Rattle.users.specs.declared.event.UserAnswer.TheVariants.{Failure};
ghost use Rattle.users.specs.declared.event.UserCall.TheVariants as calls;

use crate::event::{UserAnswer, UserCall, UserEvent};
use crate::users::Users;
use nop_types::{Bytes, NoMemory};
use outside::DeviceError;
use std::alloc::Global;
use std::marker::Model;

/// Users in memory. Their events are those that they were given, and after them none comes; what is done is kept.
#[derive(Drop)]
pub struct UsersMem {
    alloc: Global,
    answers: Vec<UserAnswer>,
    at: usize,
    faults: u64,
    trace: Vec<UserCall>,
}

impl Model for UsersMem {
    ghost use Rattle.std.specs.Prelude.{drop, length, ◌≤◌, All};
    ghost use Rattle.users.specs.Memory.{UsersMemory, MayCome};

    ghost Value = { UsersMemory };

    ghost view = { λ u. record {
      to_come = drop u.at u.answers.items;
      faults = u.faults;
      trace = u.trace.items;
    } };

    ghost invariant = { λ u. (u.at ≤ length u.answers.items) × All MayCome u.answers.items };
}

impl UsersMem {
    /// The calls of `next` answer these in order.
    pub fn new(alloc: Global, answers: Vec<UserAnswer>) -> UsersMem
        requires { All MayCome answers.items }
        ensures { result ≡ record { to_come = answers.items; faults = 0; trace = [] } }
    {
        UsersMem {
            alloc,
            answers,
            at: 0,
            faults: 0,
            trace: Vec::new(alloc),
        }
    }

    /// What was done, in order.
    pub fn trace(&self) -> &[UserCall]
        ensures { result.now ≡ self.now.trace }
    {
        &self.trace
    }

    /// What the next call gives.
    fn peek(&self) -> Result<Option<UserEvent>, DeviceError>
        ensures short { IfOk result (λ r. IfSome r IsShort) }
        ensures ok { IfOk result (λ r. result_of (next_answer self.now.to_come) ≡ Ok r) }
        ensures failed { IsErrOf result errors.Failed → next_answer self.now.to_come ≡ Failure }
    {
        match self.answers.get(self.at) {
            None | Some(UserAnswer::Nothing) => Ok(None),
            Some(UserAnswer::Failure) => Err(DeviceError::Failed),
            Some(UserAnswer::Came(event)) => Ok(Some(event.try_clone()?)),
        }
    }

    /// Lets the next call have the answer after this one.
    fn pass(&mut self)
        ensures answers { self.new.to_come ≡ drop 1 self.old.to_come }
        ensures rest { self.new ≡ record self.old { to_come = self.new.to_come } }
    {
        if self.at < self.answers.len() {
            self.at += 1;
        }
    }

    fn keep(&mut self, call: UserCall) -> Result<(), NoMemory>
        ensures ok { OnOk result (self.new ≡ record self.old {
          trace = self.old.trace ++ call ∷ [];
        }) }
        ensures err { OnErr result (self.new ≡ self.old) }
    {
        self.trace.push(call)?;
        Ok(())
    }
}

impl Users for UsersMem {
    ghost use Rattle.std.specs.Prelude.{Some};

    ghost to_come = { λ u. Some u.to_come };

    ghost trace = { λ u. Some u.trace };

    ghost fault_count = { λ u. u.faults };

    fn next(&mut self, _patience: u32) -> Result<Option<UserEvent>, DeviceError> {
        match self.peek() {
            Ok(None) => {
                self.pass();
                Ok(None)
            }
            Ok(Some(event)) => {
                self.keep(UserCall::Came(event.try_clone()?))?;
                self.pass();
                Ok(Some(event))
            }
            Err(DeviceError::Failed) => {
                self.pass();
                self.faults = self.faults.saturating_add(1);
                Err(DeviceError::Failed)
            }
            Err(DeviceError::NoMemory) => Err(DeviceError::NoMemory),
        }
    }

    fn reply(&mut self, user: u64, bytes: &[u8]) -> Result<(), NoMemory> {
        let bytes = Bytes::new(self.alloc, bytes)?;
        self.keep(UserCall::Replied { user, bytes })
    }

    fn close(&mut self, user: u64) -> Result<(), NoMemory> {
        self.keep(UserCall::Closed { user })
    }

    fn faults(&self) -> u64 {
        self.faults
    }
}
