//! The locks as a service: locks that are held, each with the fencing token of its grant.
use crate::locks::LockTable;
use crate::op::read;
use crate::undo::LockUndo;
use crate::{apply, saved};
use nop_types::{Bytes, Host, NoMemory};
use std::alloc::Global;
use std::marker::Model;

/// The locks that are held. The memory that is taken grows with the most locks that were held at a
/// time.
pub struct LockHost {
    table: LockTable,
}

// By hand, so that a crate with a service proves nothing on how its parts are dropped.
impl Drop for LockHost {
    fn drop(self) {
        let LockHost { table: _table } = self;
    }
}

impl Model for LockHost {
    ghost use Rattle.lock_host.specs.Locks.{Locks};

    ghost Value = { Locks };

    ghost view = { λ h. h.table };
}

impl Host for LockHost {
    ghost use Rattle.std.specs.Prelude.{⊤};
    ghost use Rattle.lock_host.specs.Locks.{Locks, undone};
    ghost use Rattle.lock_host.specs.Service.{lock_meaning, undo_of, IsSound};
    ghost use Rattle.lock_host.specs.Laws.{undoes, opens_sound, stays_sound, answers_short};
    ghost use Rattle.lock_host.specs.SavedLaws.{saves_short, loads_saved, loads_only};

    type Undo = LockUndo;

    ghost State = { Locks };

    ghost state = { λ locks. locks };

    ghost meaning = { lock_meaning };

    ghost undo_of = { undo_of };

    ghost undone = { undone };

    ghost fits = { λ _ _. ⊤ };

    ghost is_sound = { IsSound };

    ghost undoes = { undoes };

    ghost opens_sound = { opens_sound };

    ghost stays_sound = { stays_sound };

    ghost answers_short = { answers_short };

    ghost saves_short = { saves_short };

    ghost loads_saved = { loads_saved };

    ghost loads_only = { loads_only };

    fn fresh(alloc: Global) -> Result<LockHost, NoMemory> {
        Ok(LockHost {
            table: LockTable::new(alloc),
        })
    }

    fn apply(&mut self, op: &[u8]) -> Result<(Bytes, LockUndo), NoMemory> {
        apply::apply(&mut self.table, read(op))
    }

    fn undo(&mut self, undo: LockUndo) {
        apply::undo(&mut self.table, undo);
    }

    fn copy(&self) -> Result<LockHost, NoMemory> {
        let table = self.table.copy()?;
        Ok(LockHost { table })
    }

    fn save(&self) -> Result<Bytes, NoMemory> {
        saved::save(&self.table)
    }

    fn load(alloc: Global, bytes: &[u8]) -> Result<Option<LockHost>, NoMemory> {
        match saved::load(alloc, bytes) {
            Ok(Some(table)) => Ok(Some(LockHost { table })),
            Ok(None) => Ok(None),
            Err(e) => Err(e),
        }
    }
}
