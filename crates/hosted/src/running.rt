//! Runs what is asked for over the sockets, the files and the clock of the system.

use crate::arguments::{Task, task_of};
use crate::plans::{Plan, plan_of};
use crate::texts::{write_unfit, write_usage};
use commands::{Status, run};
use host_places::{is_marked, own_of, places_of};
use nop_types::Host;
use standard_io::{StandardIn, StandardOut, arguments};
use std::fs;
use std::io::ErrorKind;
use std::process::ExitCode;
use udp_ports::{Home, SystemClock, UdpPorts};

/// Runs an actor at its place.
fn run_at<H: Host>(rt: &HostRuntime, program: &str, words: &[String], home: Home<'_>) -> Status {
    let mut source = StandardIn::new(rt.reader());
    let mut sink = StandardOut::new(std::io::writer(rt));
    let homes = [home];
    let mut ports = UdpPorts::at_hosts(rt, rt.alloc(), &homes);
    let mut clock = SystemClock::new(rt);
    run::<H, _, _, _, _>(
        rt.alloc(),
        program,
        words,
        &mut source,
        &mut sink,
        &mut ports,
        &mut clock,
    )
}

/// Runs what is planned, once its mark is made, where there is to be one.
fn run_plan<H: Host>(rt: &HostRuntime, program: &str, task: &Task<'_>, plan: &Plan) -> Status {
    let actor = plan.at.own;
    let Ok(places) = places_of(rt.alloc(), &plan.list, &plan.at) else {
        return Status::NoMemory;
    };
    if let Some(folder) = task.marks {
        if !is_marked(rt, folder, plan.list.cluster(), task.actor) {
            return Status::LinkFault;
        }
    }
    let Some(own) = own_of(rt, &plan.list, actor) else {
        return Status::LinkFault;
    };
    let home = Home {
        places: &places,
        port: plan.at.port_of(actor),
        claims: Some(own),
    };
    run_at::<H>(rt, program, &plan.words, home)
}

/// Runs the actor that the words ask for; the first one is the program's name. `ReadFault` where the file of the list cannot be read,
/// `LinkFault` where there is no new mark, or no number can be drawn.
fn run_words<H: Host>(rt: &HostRuntime, program: &str, words: &[String]) -> Status {
    let mut sink = StandardOut::new(std::io::writer(rt));
    let Some(task) = task_of(words) else {
        return write_usage(rt.alloc(), program, &mut sink);
    };
    let text = match fs::read(rt, task.list) {
        Ok(text) => text,
        Err(e) if e.kind() == ErrorKind::OutOfMemory => return Status::NoMemory,
        Err(_) => return Status::ReadFault,
    };
    match plan_of(rt.alloc(), &text, &task) {
        Ok(plan) => run_plan::<H>(rt, program, &task, &plan),
        Err(unfit) => write_unfit(rt.alloc(), program, unfit, &mut sink),
    }
}

/// The program of a service: runs the actor that the command line asks for, and ends with its status.
pub fn run_hosted<H: Host>(rt: &HostRuntime, program: &str) -> ExitCode {
    let Ok(words) = arguments(rt) else {
        return ExitCode::from(Status::NoMemory as u8);
    };
    ExitCode::from(run_words::<H>(rt, program, &words) as u8)
}
