ghost use Rattle.std.specs.Prelude.{OnOk};
ghost use Rattle.nop_types.specs.Logs.{Trimmed};
ghost use Rattle.nop_types.specs.Ranges.{ViewFits};
ghost use Rattle.replica_state.specs.Moves.{enter};
ghost use Rattle.replica_rows.specs.Rows.{enter_view, enter_and_drain};
ghost use Rattle.replica_rows.specs.Within.{IsRunning, Does};

use crate::member::Member;
use nop_types::{Body, Host, NoMemory, View};

impl<H: Host> Member<H> {
    /// Leaves the view: all others are asked for the greater one, and its leader is told the change, or gathers changes.
    fn enter(&mut self, view: View) -> Result<(), NoMemory>
        requires runs { IsRunning H.Host self.old }
        requires fits { ViewFits view }
        ensures { OnOk result (Does H.Host self.old self.new (λ s. enter s view)) }
    {
        self.state.enter(view);
        self.to_all(Body::ViewChangeReq)?;
        if !self.state.leads() {
            return self.state.send_change(&mut self.sends);
        }
        self.state.begin_gathering(self.alloc)
    }

    /// Enters a greater view; its leader starts it at once where it is alone.
    fn enter_view(&mut self, view: View) -> Result<(), NoMemory>
        requires runs { IsRunning H.Host self.old }
        requires fits { ViewFits view }
        ensures { OnOk result (Does H.Host self.old self.new (enter_view H.meaning Trimmed view)) }
    {
        self.enter(view)?;
        if self.state.max_faults() > 0 {
            return Ok(());
        }
        let Some(changes) = &mut self.state.changes else {
            return Ok(());
        };
        let start = changes.start_now()?;
        self.open_view(start)
    }

    pub(crate) fn enter_and_drain(&mut self, view: View) -> Result<(), NoMemory>
        requires runs { IsRunning H.Host self.old }
        requires fits { ViewFits view }
        ensures { OnOk result (Does H.Host self.old self.new
            (enter_and_drain H.meaning Trimmed view)) }
    {
        self.enter_view(view)?;
        self.drain()
    }
}
