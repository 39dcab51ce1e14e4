//! Whether an output is what a trace tells.

ghost use Rattle.std.specs.Prelude.{◌≡◌, ◌&&◌};
ghost use Rattle.std.specs.Str.{bytes_eq};
ghost use Rattle.audit.specs.Telling.{teller, tells};
ghost use Rattle.audit_laws.specs.Names.{same_actor};

use crate::names::{is_number, names_dest};
use nop_types::{Actor, Out, same_actor};
use trace_rows::Gave;

fn same_bytes(a: &[u8], b: &[u8]) -> bool
    ensures { result ≡ bytes_eq a.now b.now }
{
    a == b
}

/// Who tells of an output of a step of this actor.
fn teller(from: Actor, out: &Out) -> Actor
    ensures { result ≡ teller from out.now }
{
    match out {
        Out::Submitted(request) => Actor::Client(request.client),
        Out::Accepted { client, .. } | Out::Reading { client, .. } | Out::Answered { client, .. } =>
            Actor::Client(*client),
        Out::Send(..) | Out::Busy(_) | Out::Trimmed { .. } => from,
    }
}

/// Whether what was given is this output, whoever gave it.
fn tells(gave: &Gave, out: &Out) -> bool
    ensures { result ≡ tells gave.now out.now }
{
    match (gave, out) {
        (Gave::Send(to, bytes), Out::Send(dest, sent)) => {
            names_dest(*to, *dest) && same_bytes(bytes.as_slice(), sent.as_slice())
        }
        (Gave::Submit(id, op), Out::Submitted(request)) => {
            *id == request.id && same_bytes(op.as_slice(), request.op.as_slice())
        }
        (
            Gave::Accept(id, result),
            Out::Accepted {
                id: other,
                result: given,
                ..
            },
        ) => *id == *other && same_bytes(result.as_slice(), given.as_slice()),
        (
            Gave::Read(id, number, key),
            Out::Reading {
                id: other,
                observer,
                key: asked,
                ..
            },
        ) => {
            *id == *other
                && (is_number(*number, u64::from(*observer))
                    && same_bytes(key.as_slice(), asked.as_slice()))
        }
        (
            Gave::Answer(id, number, position, result),
            Out::Answered {
                id: other,
                observer,
                position: at,
                result: given,
                ..
            },
        ) => {
            *id == *other
                && (is_number(*number, u64::from(*observer))
                    && (*position == *at && same_bytes(result.as_slice(), given.as_slice())))
        }
        _ => false,
    }
}

/// Whether what this actor gave is this output of a step of that one.
pub fn says(actor: Actor, gave: &Gave, from: Actor, out: &Out) -> bool
    ensures { result ≡ (same_actor actor (teller from out.now) && tells gave.now out.now) }
{
    same_actor(actor, teller(from, out)) && tells(gave, out)
}
