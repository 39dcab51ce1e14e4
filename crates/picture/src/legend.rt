//! What the signs of a picture mean.

use crate::data::{Mark, Note, Picture, Purpose, Role, Stretch};
use nop_types::{Actor, NoMemory};
use std::alloc::Global;

/// A sign that is explained.
#[derive(Clone, Copy)]
pub enum Sign {
    Mark(Mark),
    Arrow(Purpose),
    /// A datagram that its actor had taken before.
    Again,
    Loss,
    Lane(Role),
}

/// The signs in the order of the legend.
const SIGNS: [Sign; 23] = [
    Sign::Mark(Mark::Submitted),
    Sign::Mark(Mark::Accepted),
    Sign::Mark(Mark::Stamped),
    Sign::Mark(Mark::Logged),
    Sign::Mark(Mark::NoOp),
    Sign::Mark(Mark::Checkpoint),
    Sign::Mark(Mark::Synced),
    Sign::Mark(Mark::Entered),
    Sign::Mark(Mark::Started),
    Sign::Mark(Mark::Session),
    Sign::Mark(Mark::Crashed),
    Sign::Mark(Mark::Refused),
    Sign::Mark(Mark::Acted),
    Sign::Mark(Mark::Idle),
    Sign::Arrow(Purpose::Request),
    Sign::Arrow(Purpose::Reply),
    Sign::Arrow(Purpose::Peer),
    Sign::Arrow(Purpose::Session),
    Sign::Again,
    Sign::Loss,
    Sign::Lane(Role::Leads),
    Sign::Lane(Role::Follows),
    Sign::Lane(Role::Waits),
];

/// What a sign means.
pub fn meaning(sign: Sign) -> &'static str {
    match sign {
        Sign::Mark(mark) => mark_meaning(mark),
        Sign::Arrow(purpose) => purpose_meaning(purpose),
        Sign::Again => "again",
        Sign::Loss => "missed",
        Sign::Lane(role) => role_meaning(role),
    }
}

/// The room of a sign, with that between it and its meaning.
pub fn sign_width(sign: Sign) -> u32 {
    match sign {
        Sign::Mark(_) => 14,
        _ => 28,
    }
}

fn mark_meaning(mark: Mark) -> &'static str {
    match mark {
        Mark::Submitted => "submits",
        Mark::Accepted => "accepts",
        Mark::Refused => "refused",
        Mark::Stamped => "stamps",
        Mark::Session => "session",
        Mark::Logged => "logs",
        Mark::NoOp => "NO-OP",
        Mark::Checkpoint => "checkpoint",
        Mark::Entered => "enters view",
        Mark::Started => "view starts",
        Mark::Synced => "syncs",
        Mark::Crashed => "crashes",
        Mark::Acted => "sends",
        Mark::Idle => "nothing shows",
    }
}

fn purpose_meaning(purpose: Purpose) -> &'static str {
    match purpose {
        Purpose::Request => "request",
        Purpose::Reply => "reply",
        Purpose::Peer => "replicas",
        Purpose::Session => "sessions",
    }
}

fn role_meaning(role: Role) -> &'static str {
    match role {
        Role::Leads => "leads",
        Role::Follows => "follows",
        Role::Waits => "waits",
    }
}

fn has_note(notes: &[Note], mark: Mark) -> bool {
    for note in notes {
        if note.mark.is(mark) {
            return true;
        }
    }
    false
}

fn has_mark(picture: &Picture, mark: Mark) -> bool {
    for row in &picture.rows {
        if has_note(&row.notes, mark) {
            return true;
        }
    }
    false
}

fn has_arrow(picture: &Picture, purpose: Purpose) -> bool {
    for arrow in &picture.arrows {
        if arrow.purpose.is(purpose) {
            return true;
        }
    }
    false
}

fn has_again(picture: &Picture) -> bool {
    for arrow in &picture.arrows {
        if arrow.again {
            return true;
        }
    }
    false
}

fn is_of_replica(stretch: &Stretch, role: Role) -> bool {
    match stretch.actor {
        Actor::Replica(_) => stretch.role.is(role),
        _ => false,
    }
}

/// Whether a replica has the role somewhere.
fn has_role(picture: &Picture, role: Role) -> bool {
    for stretch in &picture.stretches {
        if is_of_replica(stretch, role) {
            return true;
        }
    }
    false
}

fn occurs(picture: &Picture, sign: Sign) -> bool {
    match sign {
        Sign::Mark(mark) => has_mark(picture, mark),
        Sign::Arrow(purpose) => has_arrow(picture, purpose),
        Sign::Again => has_again(picture),
        Sign::Loss => !picture.losses.is_empty(),
        Sign::Lane(role) => has_role(picture, role),
    }
}

/// The signs that occur in a picture.
pub fn signs(alloc: Global, picture: &Picture) -> Result<Vec<Sign>, NoMemory> {
    let mut signs = Vec::new(alloc);
    for sign in SIGNS {
        if occurs(picture, sign) {
            signs.push(sign)?;
        }
    }
    Ok(signs)
}
