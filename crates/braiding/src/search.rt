//! The search for an order. No contract says what it finds: `checking` looks at that.

use crate::traces::{Line, Traces};
use std::alloc::{AllocError, Global};
use std::collections::VecDeque;

type Queue = VecDeque<usize>;

/// Which lines are in order, and what the threads wait for. A thread is the lines of a node; the
/// first one is the head.
#[derive(Drop)]
struct Search {
    /// For each packet whether some line sends it, and none that is in order does.
    awaited: Vec<bool>,
    /// For each packet the threads that wait for it.
    waiting: Vec<Queue>,
    /// The threads that are to be looked at, first in, first out.
    ready: Queue,
    order: Vec<usize>,
}

fn queues(alloc: Global, count: usize) -> Result<Vec<Queue>, AllocError> {
    let mut all = Vec::with_capacity(alloc, count)?;
    for _made in 0..count {
        all.push(VecDeque::new(alloc))?;
    }
    Ok(all)
}

/// The places of the lines of the head, and of each node.
fn threads_of(alloc: Global, traces: &Traces) -> Result<Vec<Queue>, AllocError> {
    let mut threads = queues(alloc, traces.nodes.len().saturating_add(1))?;
    let mut thread = 0usize;
    for place in 0..traces.lines.len() {
        if let Some(node) = traces.lines[place].node {
            thread = node.saturating_add(1);
        }
        if let Some(queue) = threads.get_mut(thread) {
            queue.push_back(place)?;
        }
    }
    Ok(threads)
}

/// The packet that is sent with a line.
fn sent_by(line: &Line) -> Option<usize> {
    if line.node.is_some() {
        None
    } else {
        line.packet
    }
}

fn set(awaited: &mut [bool], packet: Option<usize>, value: bool) {
    if let Some(packet) = packet
        && packet < awaited.len()
    {
        awaited[packet] = value;
    }
}

/// Which packets some line sends.
fn sent_of(alloc: Global, traces: &Traces) -> Result<Vec<bool>, AllocError> {
    let mut awaited = vec![in alloc; false; traces.packets.len()]?;
    for line in &traces.lines {
        set(&mut awaited, sent_by(line), true);
    }
    Ok(awaited)
}

fn all_threads(alloc: Global, count: usize) -> Result<Queue, AllocError> {
    let mut all = VecDeque::with_capacity(alloc, count)?;
    for number in 0..count {
        all.push_back(number)?;
    }
    Ok(all)
}

impl Search {
    /// Whether a line has to wait.
    fn has_to_wait(&self, line: &Line) -> bool {
        match line.packet {
            Some(packet) if line.node.is_some() => {
                self.awaited.get(packet).copied().unwrap_or(false)
            }
            _ => false,
        }
    }

    /// The thread waits for a packet.
    fn wait(&mut self, packet: Option<usize>, thread: usize) -> Result<(), AllocError> {
        if let Some(packet) = packet
            && packet < self.waiting.len()
        {
            self.waiting[packet].push_back(thread)?;
        }
        Ok(())
    }

    /// Has a line go: what it sends is no longer awaited, and who waits for it is ready.
    fn go(&mut self, place: usize, sent: Option<usize>) -> Result<(), AllocError> {
        self.order.push(place)?;
        set(&mut self.awaited, sent, false);
        if let Some(packet) = sent
            && packet < self.waiting.len()
        {
            self.ready.append(&mut self.waiting[packet])?;
        }
        Ok(())
    }

    /// Has the lines of a thread go until it has to wait.
    fn run(&mut self, lines: &[Line], own: &mut Queue, thread: usize) -> Result<(), AllocError> {
        for _turn in 0..own.len() {
            let Some(place) = own.front().copied() else {
                return Ok(());
            };
            let Some(line) = lines.get(place) else {
                return Ok(());
            };
            if self.has_to_wait(line) {
                return self.wait(line.packet, thread);
            }
            self.go(place, sent_by(line))?;
            own.pop_front();
        }
        Ok(())
    }

    /// Adds the lines that are not in order.
    fn add(&mut self, thread: &Queue) -> Result<(), AllocError> {
        for place in thread {
            self.order.push(*place)?;
        }
        Ok(())
    }
}

/// An order of all lines, thread by thread: each goes on until it takes a packet that is sent later
/// on, and again when that was sent. The threads that wait in the end follow.
pub(crate) fn found_order(alloc: Global, traces: &Traces) -> Result<Vec<usize>, AllocError> {
    let mut threads = threads_of(alloc, traces)?;
    let mut search = Search {
        awaited: sent_of(alloc, traces)?,
        waiting: queues(alloc, traces.packets.len())?,
        ready: all_threads(alloc, threads.len())?,
        order: Vec::with_capacity(alloc, traces.lines.len())?,
    };
    // A thread is ready at the beginning, and once for each line that had to wait.
    for _turn in 0..threads.len().saturating_add(traces.lines.len()) {
        let Some(thread) = search.ready.pop_front() else {
            break;
        };
        if thread < threads.len() {
            search.run(&traces.lines, &mut threads[thread], thread)?;
        }
    }
    for thread in &threads {
        search.add(thread)?;
    }
    Ok(search.order)
}
