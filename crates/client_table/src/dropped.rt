ghost use Rattle.std.specs.Prelude.{◌≡◌, ◌≤◌, ◌+◌, ◌++◌, [], take, drop, length, OnOk, OnErr, IfOk};
ghost use Rattle.std.specs.VecDeque.{deque_len, deque_capacity};
ghost use Rattle.client_table.specs.Dropping.{results_of};

use nop_types::{Answered, NoMemory};
use std::alloc::Global;
use std::collections::VecDeque;

/// Results that left an account, by ascending id. Most often there is one, which needs no memory.
#[derive(Drop)]
pub enum Dropped {
    None,
    One(Answered),
    Several(Vec<Answered>),
}

/// Moves the first results away.
// Apart from its caller, since an id is mostly the next one, and one result leaves for it.
#[cold]
#[inline(never)]
fn take_several(
    alloc: Global,
    kept: &mut VecDeque<Answered>,
    count: usize,
) -> Result<Dropped, NoMemory>
    requires { count ≤ deque_len kept.old }
    ensures front { IfOk result (λ d. results_of d ≡ take count kept.old.items) }
    ensures rest { OnOk result (kept.new.items ≡ drop count kept.old.items) }
    ensures err { OnErr result (kept.new.items ≡ kept.old.items) }
    ensures capacity { deque_capacity kept.new ≡ deque_capacity kept.old }
{
    let mut results = Vec::with_capacity(alloc, count)?;
    for _ in 0..count {
        let first = kept.pop_front().unwrap();
        results.push(first).unwrap();
    }
    Ok(Dropped::Several(results))
}

/// Moves the first results away. Up to one takes no memory.
pub fn take_front(
    alloc: Global,
    kept: &mut VecDeque<Answered>,
    count: usize,
) -> Result<Dropped, NoMemory>
    requires { count ≤ deque_len kept.old }
    ensures front { IfOk result (λ d. results_of d ≡ take count kept.old.items) }
    ensures rest { OnOk result (kept.new.items ≡ drop count kept.old.items) }
    ensures err { OnErr result (kept.new.items ≡ kept.old.items) }
    ensures capacity { deque_capacity kept.new ≡ deque_capacity kept.old }
{
    if count == 0 {
        return Ok(Dropped::None);
    }
    if count == 1 {
        return Ok(Dropped::One(kept.pop_front().unwrap()));
    }
    take_several(alloc, kept, count)
}

/// Moves other results in front.
fn put_several(kept: &mut VecDeque<Answered>, mut results: Vec<Answered>)
    requires { length results.items + deque_len kept.old ≤ deque_capacity kept.old }
    ensures items { kept.new.items ≡ results.items ++ kept.old.items }
    ensures capacity { deque_capacity kept.old ≤ deque_capacity kept.new }
{
    while let Some(last) = results.pop() {
        kept.push_front(last).unwrap();
    }
}

/// Moves results in front of the others.
pub fn put_front(kept: &mut VecDeque<Answered>, dropped: Dropped)
    requires { length (results_of dropped) + deque_len kept.old ≤ deque_capacity kept.old }
    ensures items { kept.new.items ≡ results_of dropped ++ kept.old.items }
    ensures capacity { deque_capacity kept.old ≤ deque_capacity kept.new }
{
    match dropped {
        Dropped::None => {}
        Dropped::One(first) => kept.push_front(first).unwrap(),
        Dropped::Several(results) => put_several(kept, results),
    }
}
