ghost use Rattle.std.specs.Prelude.{◌≡◌, IfOk, IfSome, OnOk};
ghost use Rattle.std.specs.Option.{option_map};
ghost use Rattle.nop_types.specs.Checkpoints.{loaded_of};
ghost use Rattle.nop_types.specs.Execution.{enter_kept, exec_kept};
ghost use Rattle.executor.specs.Running.{execution};

use client_table::ClientTable;
use nop_types::{Checkpoint, Entry, Host, NoMemory};
use std::alloc::Global;

/// Executes an entry, where its client is served and its id is new.
fn enter<H: Host>(host: &mut H, table: &mut ClientTable, entry: &Entry) -> Result<(), NoMemory>
    requires { H.is_sound (H.state host.old) }
    ensures execution { OnOk result (execution (H.state host.new) table.new
        ≡ enter_kept H.meaning (execution (H.state host.old) table.old) entry.now) }
    ensures sound { H.is_sound (H.state host.new) }
{
    let request = match entry {
        Entry::NoOp => return Ok(()),
        Entry::Req(request) => request,
    };
    if !table.takes(request) {
        return Ok(());
    }
    let (answer, _undo) = host.apply(request.op.as_slice())?;
    table.keep(request.client, request.id, answer)?;
    Ok(())
}

/// Executes entries, one after the other.
#[tactic(auto, using(execution_laws::proofs::Steps::exec_kept_of_rest, execution_laws::proofs::Steps::exec_kept_of_end))]
pub(crate) fn follow<H: Host>(
    host: &mut H,
    table: &mut ClientTable,
    entries: &[Entry],
) -> Result<(), NoMemory>
    requires { H.is_sound (H.state host.old) }
    ensures execution { OnOk result (execution (H.state host.new) table.new
        ≡ exec_kept H.meaning (execution (H.state host.old) table.old) entries.now) }
    ensures sound { H.is_sound (H.state host.new) }
{
    for entry in entries {
        enter(host, table, entry)?;
    }
    Ok(())
}

/// The execution that a checkpoint has, None where it doesn't load.
pub(crate) fn loaded<H: Host>(
    alloc: Global,
    checkpoint: &Checkpoint,
) -> Result<Option<(H, ClientTable)>, NoMemory>
    ensures is { IfOk result (λ r. option_map (λ x. execution (H.state x.0) x.1) r
        ≡ loaded_of H.meaning checkpoint.now) }
    ensures sound { IfOk result (λ r. IfSome r (λ x. H.is_sound (H.state x.0))) }
{
    let Some(host) = H::load(alloc, checkpoint.host().as_slice())? else {
        return Ok(None);
    };
    let clients = checkpoint.try_clone_clients()?;
    Ok(Some((host, ClientTable::load(alloc, clients)?)))
}
