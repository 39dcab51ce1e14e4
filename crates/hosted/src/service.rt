//! Runs the command that the words ask for over the devices of the system, on this machine.

use commands::{Status, run};
use nop_types::Host;
use standard_io::{StandardIn, StandardOut, arguments};
use std::process::ExitCode;
use udp_ports::{SystemClock, UdpPorts};

/// Carries out the command that the words name, over the devices of the system.
fn run_words<H: Host>(rt: &HostRuntime, program: &str, words: &[String]) -> Status {
    let mut source = StandardIn::new(rt.reader());
    let mut sink = StandardOut::new(std::io::writer(rt));
    let mut ports = UdpPorts::new(rt, rt.alloc());
    let mut clock = SystemClock::new(rt);
    run::<H, _, _, _, _>(
        rt.alloc(),
        program,
        words,
        &mut source,
        &mut sink,
        &mut ports,
        &mut clock,
    )
}

/// The program of a service: carries out the command that the command line asks for, and gives its
/// status. Words that are not taken are answered by the usage line of a program with this name.
pub fn run_service<H: Host>(rt: &HostRuntime, program: &str) -> ExitCode {
    let Ok(words) = arguments(rt) else {
        return ExitCode::from(Status::NoMemory as u8);
    };
    ExitCode::from(run_words::<H>(rt, program, &words) as u8)
}
