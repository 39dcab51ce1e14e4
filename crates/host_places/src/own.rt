//! What a process has to itself under the number of an actor.

use admission::Own;
use host_list::HostList;
use nop_types::Actor;
use std::random::RandomSource;
use std::{fs, io};

/// What tells this process from others under the number of its actor: a number that it draws. None
/// where none is to be had.
pub fn own_of(rt: &HostRuntime, list: &HostList, actor: Actor) -> Option<Own> {
    let mut drawn = [0u8; 8];
    rt.fill_bytes(&mut drawn).ok()?;
    Some(Own {
        actor,
        digest: list.digest(),
        process: u64::from_be_bytes(drawn),
    })
}

/// Makes a mark, which may not be there yet. Both the file and the folder are on the disk then.
fn make_mark(rt: &HostRuntime, folder: &str, mark: &str) -> io::Result<()> {
    fs::File::create_new(rt, mark)?.sync_all()?;
    fs::File::open(rt, folder)?.sync_all()
}

/// Whether the mark of an actor of a cluster was made in a folder: the file `CLUSTER-ACTOR`.
pub fn is_marked(rt: &HostRuntime, folder: &str, cluster: u64, actor: &str) -> bool {
    match format!(in rt.alloc(); "{folder}/{cluster}-{actor}") {
        Ok(mark) => make_mark(rt, folder, mark.as_str()).is_ok(),
        Err(_) => false,
    }
}
