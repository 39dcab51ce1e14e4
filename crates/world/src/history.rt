ghost use Rattle.std.specs.Prelude.{◌≡◌, ◌++◌, List, OnOk, IfOk};
ghost use Rattle.nop_types.specs.Histories.{history_of};
ghost use Rattle.nop_types.specs.declared.request.Entry.{Entry};
ghost use Rattle.world.specs.Ids.{table_after, Adds};
ghost use Rattle.world.specs.Parts.{parts_of};

use crate::main_log::LogParts;
use client_table::ClientTable;
use nop_types::{Bytes, Entry, NoMemory, Request};
use std::alloc::Global;

/// One more entry of a log: its request, where it is executed. The table keeps no bytes for it, since a history rests on no results.
fn add_entry(
    table: &mut ClientTable,
    requests: &mut Vec<Request>,
    entry: &Entry,
) -> Result<(), NoMemory>
    ensures { OnOk result (Adds table.old table.new requests.old.items requests.new.items
        entry.now) }
{
    let Entry::Req(request) = entry else {
        return Ok(());
    };
    if !table.takes(request) {
        return Ok(());
    }
    requests.push(request.try_clone()?)?;
    let nothing = Bytes::from_vec(Vec::new(*requests.allocator()));
    table.keep(request.client, request.id, nothing)?;
    Ok(())
}

/// The entries that come next.
fn add_entries(
    table: &mut ClientTable,
    requests: &mut Vec<Request>,
    entries: &[Entry],
) -> Result<(), NoMemory>
    ensures { OnOk result ((log : List Entry) → table.old ≡ table_after log
        → requests.old.items ≡ history_of log
        → (table.new ≡ table_after (log ++ entries.now))
        × (requests.new.items ≡ history_of (log ++ entries.now))) }
{
    for entry in entries {
        add_entry(table, requests, entry)?;
    }
    Ok(())
}

/// The requests of a log that are executed, in order.
pub fn history_of(alloc: Global, log: LogParts<'_>) -> Result<Vec<Request>, NoMemory>
    ensures { IfOk result (λ v. v.items ≡ history_of (parts_of log.entry)) }
{
    let mut table = ClientTable::new(alloc);
    let mut requests = Vec::new(alloc);
    add_entries(&mut table, &mut requests, log.synchronised)?;
    add_entries(&mut table, &mut requests, log.kept)?;
    Ok(requests)
}
