//! A load that a tool puts on a service, over the system's clock.

ghost use Rattle.std.specs.Prelude.{◌≡◌, ◌+◌, ◌≤◌, ◌^◌, length, IsTrue};

use crate::clock::MicroClock;
use crate::saying::tell;
use client_call::Service;
use nop_types::{NoMemory, Op};
use op_text::{OpText, Words};
use outside::{Clock, WriteError, write_all};
use service_load::{LoadError, Loading, Pattern, Report, close_load, open_load};
use service_tool::{Status, Tool};
use standard_io::StandardOut;
use udp_ports::{UdpLink, UdpPorts};

/// How often it is told how far a load is, in microseconds.
const PROGRESS_MICROS: u64 = 1_000_000;

const _: () = prove!(PROGRESS_MICROS == 1_000_000);

/// What is asked for: so many ops, through so many clients from this number on, and the most
/// milliseconds without an answer.
#[derive(Clone, Copy)]
pub(crate) struct Asked {
    pub(crate) first: u32,
    pub(crate) clients: u32,
    pub(crate) ops: u64,
    pub(crate) patience: u64,
}

impl Asked {
    /// Whether there are so many numbers from the first one on.
    pub(crate) fn has_numbers(self) -> bool
        ensures { IsTrue result → self.first + self.clients ≤ 2 ^ 32 }
    {
        u64::from(self.first) + u64::from(self.clients) <= 4_294_967_296
    }
}

/// The op of words.
fn op_of<T: OpText>(rt: &HostRuntime, words: &[&str]) -> Result<Option<Op>, NoMemory> {
    let mut turned = Words::new(rt.alloc());
    for word in words {
        turned.put(word.as_bytes())?;
    }
    T::op(rt.alloc(), turned.as_slice())
}

/// The pattern of a service; None where words name no op.
fn pattern_of<T: OpText>(rt: &HostRuntime, load: &[&[&str]]) -> Result<Option<Pattern>, NoMemory> {
    let mut ops = Vec::new(rt.alloc());
    for words in load {
        match op_of::<T>(rt, words)? {
            Some(op) => ops.push(op)?,
            None => return Ok(None),
        }
    }
    Ok(Pattern::new(ops))
}

/// Why a load ended.
fn end(rt: &HostRuntime, tool: &Tool<'_>, e: LoadError) -> Status {
    match e {
        LoadError::PortFault => tell(
            rt,
            tool,
            "a client's port is in use, or its number was used before: take numbers that never were",
            Status::LinkFault,
        ),
        LoadError::LinkFault => tell(rt, tool, "the link failed", Status::LinkFault),
        LoadError::NoMemory => tell(rt, tool, "memory ran out", Status::NoMemory),
    }
}

/// Tells how far a load is: how many ops are answered, and how many were in the last second.
fn tell_progress(rt: &HostRuntime, tool: &Tool<'_>, asked: Asked, answered: u64, more: u64) {
    let ops = asked.ops;
    if let Ok(text) = format!(in rt.alloc(); "answered {answered} of {ops} rate {more}") {
        let _told = tell(rt, tool, text.as_str(), Status::Done);
    }
}

/// Takes turns until each op is answered, or none is for as long as may be.
fn take_load(
    rt: &HostRuntime,
    tool: &Tool<'_>,
    asked: Asked,
    loading: &mut Loading<UdpLink<'_, HostRuntime>>,
    clock: &mut MicroClock<'_, HostRuntime>,
) -> Status
    ensures { length loading.new.lanes.items ≡ length loading.old.lanes.items }
{
    let mut idle: u64 = 0;
    for _ in 0..u64::MAX {
        let before = loading.answered();
        match loading.take_turns(PROGRESS_MICROS, u64::MAX, clock) {
            Ok(true) => return Status::Done,
            Ok(false) => {}
            Err(e) => return end(rt, tool, e),
        }
        let more = loading.answered().saturating_sub(before);
        tell_progress(rt, tool, asked, loading.answered(), more);
        idle = if more == 0 {
            idle.saturating_add(1000)
        } else {
            0
        };
        if idle >= asked.patience {
            break;
        }
    }
    tell(
        rt,
        tool,
        "no answer in its turns; the ops may still be executed. Is the service up, and were the numbers never used?",
        Status::Unanswered,
    )
}

/// Writes what a load came to, that lasted so many microseconds.
fn conclude(
    rt: &HostRuntime,
    asked: Asked,
    micros: u64,
    report: &Report,
) -> Result<(), WriteError> {
    let (answered, ops) = (report.answered, asked.ops);
    let rate = u128::from(answered) * 1_000_000 / u128::from(micros.max(1));
    let (p50, p99) = (report.p50().unwrap_or(0), report.p99().unwrap_or(0));
    let line = format!(in rt.alloc();
        "answered {answered} of {ops} rate {rate} p50 {p50} p99 {p99}\n"
    )?;
    let mut out = StandardOut::new(std::io::writer(rt));
    write_all(&mut out, line.as_str().as_bytes())
}

/// Puts a load on a service over ports.
pub(crate) fn load_over<T: OpText>(
    rt: &HostRuntime,
    tool: &Tool<'_>,
    load: &[&[&str]],
    service: &Service,
    asked: Asked,
    ports: &mut UdpPorts<'_, HostRuntime>,
) -> Status
    requires { asked.first + asked.clients ≤ 2 ^ 32 }
{
    let pattern = match pattern_of::<T>(rt, load) {
        Ok(Some(pattern)) => pattern,
        Ok(None) => return Status::Usage,
        Err(NoMemory) => return Status::NoMemory,
    };
    let mut loading = match open_load(
        rt.alloc(),
        service,
        asked.first,
        asked.clients,
        pattern,
        asked.ops,
        ports,
    ) {
        Ok(loading) => loading,
        Err(e) => return end(rt, tool, e),
    };
    let mut clock = MicroClock::new(rt);
    let begun = clock.now();
    let status = take_load(rt, tool, asked, &mut loading, &mut clock);
    let micros = clock.now().saturating_sub(begun);
    match close_load(loading, ports) {
        Ok(report) => match conclude(rt, asked, micros, &report) {
            Ok(()) => status,
            Err(WriteError::Failed) => Status::WriteFault,
            Err(WriteError::NoMemory) => Status::NoMemory,
        },
        Err(NoMemory) => Status::NoMemory,
    }
}
