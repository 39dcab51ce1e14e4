ghost use Rattle.std.specs.Prelude.{OnOk};
ghost use Rattle.nop_types.specs.Logs.{Trimmed};
ghost use Rattle.replica_rows.specs.Rows.{suspect, watch, sync};
ghost use Rattle.replica_rows.specs.Within.{IsRunning, Does};

use crate::member::Member;
use nop_types::{Host, NoMemory, View};

impl<H: Host> Member<H> {
    /// The view's leader is suspected: the next leader's view is entered.
    pub(crate) fn suspect(&mut self) -> Result<(), NoMemory>
        requires runs { IsRunning H.Host self.old }
        ensures { OnOk result (Does H.Host self.old self.new (suspect H.meaning Trimmed)) }
    {
        let view = self.state.view;
        if view.leader == u32::MAX {
            return Ok(());
        }
        self.enter_and_drain(View {
            leader: view.leader + 1,
            session: view.session,
        })
    }

    /// A replica that is not the leader in Normal suspects a leader of which it heard nothing since the last tick.
    pub(crate) fn watch(&mut self) -> Result<(), NoMemory>
        requires runs { IsRunning H.Host self.old }
        ensures { OnOk result (Does H.Host self.old self.new (watch H.meaning Trimmed)) }
    {
        if self.state.is_normal() && self.state.leads() {
            return Ok(());
        }
        if self.state.heard {
            self.state.heard = false;
            return Ok(());
        }
        self.suspect()
    }

    /// A leader without a gap has its log synchronised, or says again how far it is.
    pub(crate) fn sync(&mut self) -> Result<(), NoMemory>
        requires runs { IsRunning H.Host self.old }
        ensures { OnOk result (Does H.Host self.old self.new (sync H.meaning Trimmed)) }
    {
        self.state.sync(&mut self.sends)?;
        let trimmed = self.trim_log()?;
        self.send_trimmed(trimmed)
    }
}
