//! The program of a tool: its words, and its devices.

ghost use Rattle.std.specs.Prelude.{◌+◌, ◌≤◌, ◌^◌};

use crate::load;
use crate::load::load_over;
use crate::rows::all_rows;
use crate::saying::{status_of, tell};
use client_call::Service;
use host_list::HostList;
use host_places::{address_in, has_clients, homes_of, own_of, places_of};
use host_watch::watch_at;
use nop_types::{Actor, Bytes, Config, MAX_CONTROLLERS, MAX_OBSERVERS, NoMemory};
use op_text::{OpText, Words};
use outside::{WriteError, WriteMem, write_all};
use roll_call::Roll;
use service_tool::{Asked, Command, Options, Row, Status, Tool, run_command, tell_watch, told};
use service_words::{Direction, ResultText, WordsError, translate};
use standard_io::{StandardIn, StandardOut};
use std::fs;
use std::io::ErrorKind;
use std::process::ExitCode;
use udp_node::{Address, BasePort};
use udp_ports::{Home, SystemClock, UdpPorts};
use watching::{WatchError, watch_cluster};

/// Submits ops over ports, as this client.
fn call_over<T: OpText>(
    rt: &HostRuntime,
    tool: &Tool<'_>,
    service: &Service,
    number: u32,
    asked: &Asked,
    ports: &mut UdpPorts<'_, HostRuntime>,
) -> Status {
    let mut source = StandardIn::new(rt.reader());
    let mut out = StandardOut::new(std::io::writer(rt));
    let mut err = StandardOut::new(rt.stderr());
    let mut clock = SystemClock::new(rt);
    status_of(run_command::<T, _, _, _, _, _>(
        rt.alloc(),
        tool,
        service,
        number,
        asked,
        &mut source,
        ports,
        &mut clock,
        &mut out,
        &mut err,
    ))
}

/// Submits ops on this machine, at the ports of a service.
fn call_here<T: OpText>(rt: &HostRuntime, tool: &Tool<'_>, asked: &Asked, number: u32) -> Status {
    let options = asked.options;
    let config = Config::new(options.replicas, options.sequencers, 1, MAX_CONTROLLERS, 0);
    let (Some(base), Some(config)) = (BasePort::new(options.base), config) else {
        return Status::Usage;
    };
    let service = Service { base, config };
    let mut ports = UdpPorts::new(rt, rt.alloc());
    call_over::<T>(rt, tool, &service, number, asked, &mut ports)
}

/// Submits ops as a client of a list of hosts.
fn call_in<T: OpText>(
    rt: &HostRuntime,
    tool: &Tool<'_>,
    list: &HostList,
    asked: &Asked,
    number: u32,
) -> Status {
    let own = Actor::Client(number);
    if list.address_of(own).is_none() {
        return tell(
            rt,
            tool,
            "the list of hosts has no place for this client number",
            Status::Usage,
        );
    }
    let Some(at) = address_in(list, own) else {
        return Status::Usage;
    };
    let Ok(places) = places_of(rt.alloc(), list, &at) else {
        return Status::NoMemory;
    };
    let Some(own) = own_of(rt, list, own) else {
        return Status::LinkFault;
    };
    let homes = [Home {
        places: &places,
        port: at.port_of(at.own),
        claims: Some(own),
    }];
    let service = Service {
        base: at.base,
        config: at.config,
    };
    let mut ports = UdpPorts::at_hosts(rt, rt.alloc(), &homes);
    call_over::<T>(rt, tool, &service, number, asked, &mut ports)
}

/// Puts a load on a service on this machine.
fn load_here<T: OpText>(
    rt: &HostRuntime,
    tool: &Tool<'_>,
    load: &[&[&str]],
    options: Options,
    asked: load::Asked,
) -> Status
    requires { asked.first + asked.clients ≤ 2 ^ 32 }
{
    let config = Config::new(options.replicas, options.sequencers, 1, MAX_CONTROLLERS, 0);
    let (Some(base), Some(config)) = (BasePort::new(options.base), config) else {
        return Status::Usage;
    };
    let service = Service { base, config };
    let mut ports = UdpPorts::new(rt, rt.alloc());
    load_over::<T>(rt, tool, load, &service, asked, &mut ports)
}

/// Puts a load on a service of a list of hosts, each client at its place.
fn load_in<T: OpText>(
    rt: &HostRuntime,
    tool: &Tool<'_>,
    load: &[&[&str]],
    list: &HostList,
    asked: load::Asked,
) -> Status
    requires { asked.first + asked.clients ≤ 2 ^ 32 }
{
    if !has_clients(list, asked.first, asked.clients) {
        return tell(
            rt,
            tool,
            "the list of hosts has no place for one of these client numbers",
            Status::Usage,
        );
    }
    let first = Actor::Client(asked.first);
    let (Some(at), Some(own)) = (address_in(list, first), own_of(rt, list, first)) else {
        return Status::LinkFault;
    };
    let Ok(places) = places_of(rt.alloc(), list, &at) else {
        return Status::NoMemory;
    };
    let homes = homes_of(rt.alloc(), &places, &at, own, asked.first, asked.clients);
    let Ok(homes) = homes else {
        return Status::NoMemory;
    };
    let service = Service {
        base: at.base,
        config: at.config,
    };
    let mut ports = UdpPorts::at_hosts(rt, rt.alloc(), &homes);
    load_over::<T>(rt, tool, load, &service, asked, &mut ports)
}

/// Puts a load on a service, on this machine or of a list of hosts.
fn run_load<T: OpText>(
    rt: &HostRuntime,
    tool: &Tool<'_>,
    load: &[&[&str]],
    list: Option<&HostList>,
    options: Options,
    asked: load::Asked,
) -> Status {
    if !asked.has_numbers() {
        return tell(
            rt,
            tool,
            "want client numbers up to 4294967295",
            Status::Usage,
        );
    }
    match list {
        None => load_here::<T>(rt, tool, load, options, asked),
        Some(list) => load_in::<T>(rt, tool, load, list, asked),
    }
}

/// One state, in the turns of the options.
fn one_state(options: Options) -> watching::Asked {
    watching::Asked {
        once: true,
        redraws: false,
        turns: options.turns,
    }
}

/// Tells how a watch ended, where no state was shown.
fn ended(rt: &HostRuntime, tool: &Tool<'_>, ended: Result<bool, WatchError>) -> Status {
    let mut err = StandardOut::new(rt.stderr());
    status_of(tell_watch(rt.alloc(), tool, ended, &mut err))
}

/// Shows the state of a service on this machine.
fn show_here(rt: &HostRuntime, tool: &Tool<'_>, options: Options) -> Status {
    let config = Config::new(
        options.replicas,
        options.sequencers,
        1,
        MAX_CONTROLLERS,
        MAX_OBSERVERS,
    );
    let (Some(base), Some(config)) = (BasePort::new(options.base), config) else {
        return Status::Usage;
    };
    let own = Actor::Observer(options.observer);
    let at = Address { base, own, config };
    let shown = watch_cluster(
        rt.alloc(),
        config,
        at.port_of(own),
        one_state(options),
        Roll::none(rt.alloc()),
        &mut UdpPorts::new(rt, rt.alloc()),
        &mut SystemClock::new(rt),
        &mut StandardOut::new(std::io::writer(rt)),
    );
    ended(rt, tool, shown)
}

/// Shows the state of a service of a list of hosts.
fn show_in(rt: &HostRuntime, tool: &Tool<'_>, list: &HostList, options: Options) -> Status {
    let own = Actor::Observer(options.observer);
    if list.address_of(own).is_none() {
        return tell(
            rt,
            tool,
            "the list of hosts has no place for this observer",
            Status::Usage,
        );
    }
    ended(rt, tool, watch_at(rt, list, own, one_state(options)))
}

/// The text of a word that names a file.
fn name_at(words: &[Bytes], at: usize) -> Option<&str> {
    let word = words.get(at)?;
    std::str::from_utf8(word.as_slice()).ok()
}

/// The list of hosts in the file that a word names. Where there is none, why is told.
fn list_at(
    rt: &HostRuntime,
    tool: &Tool<'_>,
    words: &[Bytes],
    at: usize,
) -> Result<HostList, Status> {
    let Some(name) = name_at(words, at) else {
        return Err(tell(rt, tool, "want a file name behind --hosts", Status::Usage));
    };
    let Ok(text) = fs::read(rt, name) else {
        return Err(tell(
            rt,
            tool,
            "the file of the list of hosts can't be read",
            Status::ReadFault,
        ));
    };
    match host_list::read(&text) {
        Ok(list) => Ok(list),
        Err(refusal) => {
            let (line, rule) = (refusal.line, refusal.rule.number());
            match format!(in rt.alloc(); "the list of hosts breaks rule {rule} at line {line}") {
                Ok(reason) => Err(tell(rt, tool, reason.as_str(), Status::Usage)),
                Err(_) => Err(Status::NoMemory),
            }
        }
    }
}

/// The words as those of `op_text`.
fn words_of(rt: &HostRuntime, words: &[Bytes]) -> Result<Words, NoMemory> {
    let mut turned = Words::new(rt.alloc());
    for word in words {
        turned.put(word.as_slice())?;
    }
    Ok(turned)
}

/// Turns an op or a result into bytes, or into words, or tells what would be right.
fn turn<T: OpText>(
    rt: &HostRuntime,
    tool: &Tool<'_>,
    words: &[Bytes],
) -> Result<Status, WriteError> {
    let words = words_of(rt, words)?;
    let mut text = WriteMem::new(rt.alloc());
    let usage = "want op WORDS, text OP or result RESULT, by an op of this service";
    match op_text::run::<T, _>(rt.alloc(), usage, &words, &mut text)? {
        op_text::Status::Done => {
            let mut out = StandardOut::new(std::io::writer(rt));
            write_all(&mut out, text.as_slice())?;
            Ok(Status::Done)
        }
        op_text::Status::Usage => Ok(tell(rt, tool, usage, Status::Usage)),
        op_text::Status::WriteFault => Ok(Status::WriteFault),
        op_text::Status::NoMemory => Ok(Status::NoMemory),
    }
}

/// Tells why not all lines were written.
fn complain(rt: &HostRuntime, tool: &Tool<'_>, e: WordsError) -> Status {
    match e {
        WordsError::Refused { line } => {
            match format!(in rt.alloc(); "line {line} has more than 4096 bytes") {
                Ok(reason) => tell(rt, tool, reason.as_str(), Status::from(e)),
                Err(_) => Status::NoMemory,
            }
        }
        WordsError::ReadFault => tell(rt, tool, "the input can't be read", Status::from(e)),
        WordsError::WriteFault | WordsError::NoMemory => Status::from(e),
    }
}

/// Writes the lines of standard input in words, or in hexadecimal.
fn turn_lines<T: OpText, P: ResultText>(
    rt: &HostRuntime,
    tool: &Tool<'_>,
    direction: Direction,
) -> Status {
    let mut source = StandardIn::new(rt.reader());
    let mut out = StandardOut::new(std::io::writer(rt));
    match translate::<T, P, _, _>(rt.alloc(), direction, &mut source, &mut out) {
        Ok(()) => Status::Done,
        Err(e) => complain(rt, tool, e),
    }
}

/// Does what is asked for, at the places of a list of hosts, or at the ports of this machine.
fn run_at<T: OpText>(
    rt: &HostRuntime,
    tool: &Tool<'_>,
    load: &[&[&str]],
    list: Option<&HostList>,
    asked: &Asked,
) -> Status {
    match (&asked.command, asked.options.id, list) {
        (Command::Load(clients, ops), Some(first), list) => {
            let loading = load::Asked {
                first,
                clients: *clients,
                ops: *ops,
                patience: asked.options.turns,
            };
            run_load::<T>(rt, tool, load, list, asked.options, loading)
        }
        (Command::Status, _, None) => show_here(rt, tool, asked.options),
        (Command::Status, _, Some(list)) => show_in(rt, tool, list, asked.options),
        (_, Some(number), None) => call_here::<T>(rt, tool, asked, number),
        (_, Some(number), Some(list)) => call_in::<T>(rt, tool, list, asked, number),
        (_, None, _) => Status::Usage,
    }
}

/// Does what is asked for.
fn run_asked<T: OpText, P: ResultText>(
    rt: &HostRuntime,
    tool: &Tool<'_>,
    load: &[&[&str]],
    words: &[Bytes],
    asked: &Asked,
) -> Status {
    match asked.command {
        Command::Turn(at) => {
            let (_options, turned) = words.split_at(at.min(words.len()));
            return status_of(turn::<T>(rt, tool, turned));
        }
        Command::Lines(direction) => return turn_lines::<T, P>(rt, tool, direction),
        _ => {}
    }
    match asked.options.hosts {
        None => run_at::<T>(rt, tool, load, None, asked),
        Some(at) => match list_at(rt, tool, words, at) {
            Ok(list) => run_at::<T>(rt, tool, load, Some(&list), asked),
            Err(status) => status,
        },
    }
}

/// Does what the words ask for, but for the first one, which is the program's name.
fn run_words<T: OpText, P: ResultText>(
    rt: &HostRuntime,
    tool: &Tool<'_>,
    load: &[&[&str]],
    words: &[String],
) -> Status {
    let Ok(words) = Words::of_arguments(rt.alloc(), words) else {
        return Status::NoMemory;
    };
    let mut out = StandardOut::new(std::io::writer(rt));
    let mut err = StandardOut::new(rt.stderr());
    match told::<T, _, _>(rt.alloc(), tool, words.as_slice(), &mut out, &mut err) {
        Ok(Ok(asked)) => run_asked::<T, P>(rt, tool, load, words.as_slice(), &asked),
        Ok(Err(status)) => status,
        Err(WriteError::Failed) => Status::WriteFault,
        Err(WriteError::NoMemory) => Status::NoMemory,
    }
}

/// The words of the command line, and the status where there are none.
fn words_in(rt: &HostRuntime, tool: &Tool<'_>) -> Result<Vec<String>, Status> {
    let words = match std::env::args(rt) {
        Ok(args) => args.collect(rt.alloc()),
        Err(e) if e.kind() == ErrorKind::InvalidData => {
            return Err(tell(rt, tool, "a word is no text", Status::Usage));
        }
        Err(_) => return Err(Status::NoMemory),
    };
    match words {
        Ok(words) => Ok(words),
        Err(_) => Err(Status::NoMemory),
    }
}

/// The program of a tool, whose rows are the ops of a service: does what the command line asks for,
/// and ends with its status. A load consists of the ops of these words, at least one.
pub fn run_tool<T: OpText, P: ResultText>(
    rt: &HostRuntime,
    program: &str,
    ops: &[Row<'_>],
    load: &[&[&str]],
) -> ExitCode {
    let Ok(rows) = all_rows(rt.alloc(), ops) else {
        return ExitCode::from(Status::NoMemory as u8);
    };
    let tool = Tool {
        program,
        rows: &rows,
    };
    let status = match words_in(rt, &tool) {
        Ok(words) => run_words::<T, P>(rt, &tool, load, &words),
        Err(status) => status,
    };
    ExitCode::from(status as u8)
}
