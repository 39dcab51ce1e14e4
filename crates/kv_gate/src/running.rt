//! What the words ask for.

ghost use Rattle.site_words.specs.Tasks.{AreBelow};

use crate::hosts::run_at_hosts;
use crate::status::Status;
use crate::texts::write_usage;
use crate::waking::WakingPorts;
use client_call::Service;
use gate::{GateError, Seats, serve};
use roll_call::Roll;
use site_words::{Numbers, Site, Task, task_of};
use std::net::SocketAddr;
use tcp_users::TcpUsers;
use udp_ports::{SystemClock, UdpPorts};

/// Answers users, and watches the service at the place of an observer, if it is to, where it asks
/// the nodes of the roll, until a device fails.
pub(crate) fn serve_over(
    rt: &HostRuntime,
    listen: SocketAddr,
    numbers: Numbers,
    observer: Option<u8>,
    roll: Roll,
    service: &Service,
    ports: UdpPorts<'_, HostRuntime>,
) -> Status
    requires { AreBelow numbers }
{
    let Ok(mut users) = TcpUsers::listen(rt, rt.alloc(), listen) else {
        return Status::LinkFault;
    };
    let Ok(registry) = users.registry() else {
        return Status::LinkFault;
    };
    let mut ports = WakingPorts::new(ports.without_waits(), registry);
    let mut clock = SystemClock::new(rt);
    let seats = Seats {
        first: numbers.first,
        count: numbers.count as usize,
        observer,
    };
    let ended = serve(
        rt.alloc(),
        service,
        seats,
        roll,
        u64::MAX,
        &mut ports,
        &mut users,
        &mut clock,
    );
    match ended {
        Ok(()) => Status::Done,
        Err(GateError::NoMemory) => Status::NoMemory,
        Err(_) => Status::LinkFault,
    }
}

/// Runs the gateway that the words ask for; the first one is the program's name.
pub(crate) fn run(rt: &HostRuntime, words: &[String]) -> Status {
    let Some(task) = task_of(words) else {
        return write_usage(&mut std::io::writer(rt));
    };
    let Task {
        listen,
        site,
        numbers,
    } = task;
    match site {
        Site::Near { service, observer } => {
            let ports = UdpPorts::new(rt, rt.alloc());
            let roll = Roll::none(rt.alloc());
            serve_over(rt, listen, numbers, observer, roll, &service, ports)
        }
        Site::Listed {
            list,
            marks,
            observer,
        } => run_at_hosts(rt, listen, numbers, list, marks, observer),
    }
}
