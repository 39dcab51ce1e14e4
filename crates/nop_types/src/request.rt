ghost use Rattle.std.specs.Prelude.{◌≡◌, IfOk};

use crate::{NoMemory, Op};

/// A client's request. Ids count from 1; a client with number 7 that submits its third op sends id 3.
#[derive(Debug, Drop)]
pub struct Request {
    pub client: u32,
    pub id: u64,
    pub op: Op,
}

impl Request {
    pub fn try_clone(&self) -> Result<Request, NoMemory>
        ensures { IfOk result (λ r. r ≡ self.now) }
    {
        Ok(Request {
            client: self.client,
            id: self.id,
            op: self.op.try_clone()?,
        })
    }
}

/// What is in a slot of a log.
#[derive(Debug, Drop)]
pub enum Entry {
    NoOp,
    Req(Request),
}

impl Entry {
    pub fn try_clone(&self) -> Result<Entry, NoMemory>
        ensures { IfOk result (λ e. e ≡ self.now) }
    {
        match self {
            Entry::NoOp => Ok(Entry::NoOp),
            Entry::Req(request) => Ok(Entry::Req(request.try_clone()?)),
        }
    }
}
