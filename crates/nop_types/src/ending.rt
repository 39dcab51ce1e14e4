ghost use Rattle.std.specs.Prelude.{◌≡◌, ◌++◌, true, IsOk, OnErr, OnOk};

use crate::{NoMemory, Outbox};

/// Ends a core's step that made these outputs. They are appended to `out`, where the step ended well and memory is left;
/// else the core has failed.
pub fn end_step(
    acted: Result<(), NoMemory>,
    made: Outbox,
    out: &mut Outbox,
    failed: &mut bool,
) -> Result<(), NoMemory>
    ensures acted { OnOk result (IsOk acted) }
    ensures out { OnOk result (out.new ≡ out.old ++ made) }
    ensures well { OnOk result (failed.new ≡ failed.old) }
    ensures failed { OnErr result (failed.new ≡ true) }
    ensures kept { OnErr result (out.new ≡ out.old) }
{
    if acted.is_err() || out.append(made).is_err() {
        *failed = true;
        return Err(NoMemory);
    }
    Ok(())
}
