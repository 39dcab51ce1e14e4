use crate::op::read;
use crate::table::Table;
use crate::undo::KvUndo;
use crate::{apply, saved};
use nop_types::{Bytes, Host, NoMemory};
use std::alloc::Global;
use std::marker::Model;

/// A map from keys to values, which begins empty. In a clause it is the finite map of its places, one for each key that was
/// ever written, with its value or without one; its state is the keys that have a value. A place is never taken away, so the
/// memory grows with the number of different keys.
pub struct KvHost {
    table: Table,
}

// By hand, so that a crate with a service proves nothing on how its parts are dropped.
impl Drop for KvHost {
    fn drop(self) {
        let KvHost { table: _table } = self;
    }
}

impl Model for KvHost {
    ghost use Rattle.std.specs.Prelude.{ℕ, List};
    ghost use Rattle.std.specs.Coded.{coded_ℕ, coded_list, coded_option};
    ghost use Rattle.std.specs.FinMap as finite;
    ghost use Rattle.kv_host.specs.Places.{Places, places};

    ghost Value = { Places };

    ghost coded = { finite.code (coded_list coded_ℕ) (coded_option (coded_list coded_ℕ)) };

    ghost view = { λ h. places h.table };
}

impl Host for KvHost {
    ghost use Rattle.kv_host.specs.Op.{read_op};
    ghost use Rattle.kv_host.specs.Kv.{kv_meaning, IsSound};
    ghost use Rattle.kv_host.specs.Values.{Kv};
    ghost use Rattle.kv_host.specs.Undo.{undo_of, undone};
    ghost use Rattle.kv_host.specs.Places.{values_of, HasPlace};
    ghost use Rattle.kv_host.specs.SavedLaws.{saves_short, loads_saved, loads_only};
    ghost use Rattle.kv_host.specs.Laws.{undoes, opens_sound, stays_sound, answers_short};

    type Undo = Option<KvUndo>;

    ghost State = { Kv };

    ghost state = { values_of };

    ghost meaning = { kv_meaning };

    ghost undo_of = { λ kv op. undo_of kv (read_op op) };

    ghost undone = { undone };

    ghost fits = { HasPlace };

    ghost is_sound = { IsSound };

    ghost undoes = { undoes };

    ghost opens_sound = { opens_sound };

    ghost stays_sound = { stays_sound };

    ghost answers_short = { answers_short };

    ghost saves_short = { saves_short };

    ghost loads_saved = { loads_saved };

    ghost loads_only = { loads_only };

    fn fresh(alloc: Global) -> Result<KvHost, NoMemory> {
        Ok(KvHost {
            table: Table::new(alloc),
        })
    }

    fn apply(&mut self, op: &[u8]) -> Result<(Bytes, Option<KvUndo>), NoMemory> {
        apply::apply(self.table.alloc(), &mut self.table, read(op))
    }

    #[tactic(auto, using(crate::proofs::PlacesLemmas::place_writes))]
    fn undo(&mut self, undo: Option<KvUndo>) {
        if let Some(undo) = undo {
            apply::undo(&mut self.table, undo);
        }
    }

    fn copy(&self) -> Result<KvHost, NoMemory> {
        let table = self.table.copy()?;
        Ok(KvHost { table })
    }

    fn save(&self) -> Result<Bytes, NoMemory> {
        saved::save(self.table.alloc(), &self.table)
    }

    fn load(alloc: Global, bytes: &[u8]) -> Result<Option<KvHost>, NoMemory> {
        match saved::load(alloc, bytes) {
            Ok(Some(table)) => Ok(Some(KvHost { table })),
            Ok(None) => Ok(None),
            Err(e) => Err(e),
        }
    }
}
