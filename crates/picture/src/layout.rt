//! Where each part of a picture stands, in pixels.

ghost use Rattle.std.specs.Prelude.{◌≡◌, ◌<◌, ◌≤◌, All, IfOk};
ghost use Rattle.picture.specs.Lanes.{lane_of, actors_of, StandApart};

use crate::data::{Loss, Note, Picture, Row};
use crate::lane::{Lane, lane_of};
use crate::legend::{Sign, meaning, sign_width};
use crate::parts::Point;
use nop_types::{Actor, NoMemory};
use std::alloc::Global;

/// The height of a note, and of a row with one note.
pub const NOTE_HEIGHT: u32 = 18;

/// The height of a line of names.
pub const HEAD_HEIGHT: u32 = 24;

/// After how many rows the names stand again.
const ROWS_A_HEAD: usize = 40;

/// The width of a character of a label, in tenths of a pixel.
const LABEL_TENTHS: u32 = 61;

/// The width of a character beside the lanes, in tenths of a pixel.
const TEXT_TENTHS: u32 = 67;

/// What stands behind the name of who never got a datagram.
pub const MISSES: &str = " misses";

/// How far an arrow that comes back to its lane goes to the right.
pub const BEND_WIDTH: u32 = 24;

// A number that both code and contracts name would be proved whatever it was; so here it stands once more.
const _: () = prove!(BEND_WIDTH == 24);

/// The height of the legend.
const SIGN_HEIGHT: u32 = 17;

/// Between a sign of the legend with its meaning and the next one.
const SIGN_GAP: u32 = 11;

/// Between two parts beside each other.
const GAP: u32 = 18;

/// From a lane to the next one, or to the labels.
const LANE_WIDTH: u32 = 64;

/// Where the parts of a picture stand.
#[derive(Drop)]
pub struct Layout {
    /// Where the signs of the legend begin.
    signs: Vec<u32>,
    /// Where the numbers of lines end.
    pub line_end: u32,
    /// Where the words of events begin.
    pub event_at: u32,
    /// Where the text of what was delivered begins.
    pub detail_at: u32,
    pub lanes: Vec<Lane>,
    /// Where the labels of notes begin: right of all lanes and their arrows.
    pub labels_at: u32,
    /// Where the label of each loss begins.
    losses: Vec<u32>,
    /// The middle of the first note of each row.
    rows: Vec<u32>,
    /// The middle of each line of names but the first.
    pub heads: Vec<u32>,
    /// The first line of names.
    pub top: u32,
    /// Where the lanes end.
    pub bottom: u32,
    pub width: u32,
}

fn small(n: usize) -> u32 {
    u32::try_from(n).unwrap_or(u32::MAX)
}

/// The width of a label.
pub fn label_width(characters: usize) -> u32 {
    small(characters).saturating_mul(LABEL_TENTHS) / 10
}

/// The width of a text beside the lanes.
fn text_width(characters: usize) -> u32 {
    small(characters).saturating_mul(TEXT_TENTHS) / 10
}

/// The height of a number of notes.
pub fn notes_height(notes: usize) -> u32 {
    small(notes).saturating_mul(NOTE_HEIGHT)
}

/// How many characters a number has.
fn digits(n: u32) -> usize {
    match n.checked_ilog10() {
        Some(tens) => (tens as usize).saturating_add(1),
        None => 1,
    }
}

fn longest_note(notes: &[Note]) -> usize {
    let mut most = 0;
    for note in notes {
        most = most.max(note.text.len());
    }
    most
}

fn longest_of_rows(rows: &[Row]) -> usize {
    let mut most = 0;
    for row in rows {
        most = most.max(longest_note(&row.notes));
    }
    most
}

/// How many characters the name of an actor has.
fn name_length(actor: Actor) -> usize {
    match actor {
        Actor::Controller(0) => 3,
        Actor::Controller(i) => digits(u32::from(i)).saturating_add(3),
        Actor::Client(i) => digits(i).saturating_add(1),
        Actor::Replica(i) | Actor::Sequencer(i) | Actor::Observer(i) => {
            digits(u32::from(i)).saturating_add(1)
        }
    }
}

/// The room of the name of who misses something, with the word behind it.
pub fn misses_width(actor: Actor) -> u32 {
    label_width(name_length(actor).saturating_add(MISSES.len() + 1))
}

/// The room of the label of a loss.
fn loss_width(loss: &Loss) -> u32 {
    misses_width(loss.to)
        .saturating_add(label_width(loss.text.len()))
        .saturating_add(GAP)
}

fn longest_event(rows: &[Row]) -> usize {
    let mut most = 0;
    for row in rows {
        most = most.max(row.event.len());
    }
    most
}

fn longest_detail(rows: &[Row]) -> usize {
    let mut most = 0;
    for row in rows {
        most = most.max(row.detail.len());
    }
    most
}

/// The number of the last line.
fn last_line(rows: &[Row]) -> u32 {
    match rows.last() {
        Some(row) => row.line,
        None => 0,
    }
}

/// The lanes from a place on, and where labels may begin.
fn place_lanes(alloc: Global, actors: &[Actor], at: u32) -> Result<(Vec<Lane>, u32), NoMemory>
    ensures actors { IfOk result (λ p. actors_of p.0.items ≡ actors.now) }
    ensures apart { IfOk result (λ p. p.1 < u32.MAX → StandApart p.0.items p.1) }
{
    let mut lanes = Vec::new(alloc);
    let mut x = at;
    for actor in actors {
        lanes.push(Lane { actor: *actor, x })?;
        x = x.saturating_add(LANE_WIDTH);
    }
    Ok((lanes, x))
}

/// Where the first note of a row ends, and labels behind it may begin.
fn first_end(rows: &[Row], row: usize, at: u32) -> u32
    ensures { at ≤ result }
{
    match rows.get(row) {
        Some(row) => match row.notes.first() {
            Some(note) if !note.text.is_empty() => at
                .saturating_add(label_width(note.text.len()))
                .saturating_add(GAP),
            _ => at,
        },
        None => at,
    }
}

/// Where the label of a loss begins: behind that of the one before, if it is of the same row.
fn loss_at(rows: &[Row], before: Option<usize>, loss: &Loss, x: u32, at: u32) -> u32
    requires { at ≤ x }
    ensures { at ≤ result }
{
    match before {
        Some(row) if row == loss.sent => x,
        _ => first_end(rows, loss.sent, at),
    }
}

/// Where the labels of losses begin, from a place on, and where they all have ended.
fn place_losses(alloc: Global, picture: &Picture, at: u32) -> Result<(Vec<u32>, u32), NoMemory>
    ensures { IfOk result (λ p. All (λ x. at ≤ x) p.0.items) }
{
    let rows = picture.rows.as_slice();
    let mut places = Vec::new(alloc);
    let mut row = None;
    let mut x = at;
    let mut end = at;
    for loss in &picture.losses {
        let place = loss_at(rows, row, loss, x, at);
        places.push(place)?;
        row = Some(loss.sent);
        x = place.saturating_add(loss_width(loss));
        end = end.max(x);
    }
    Ok((places, end))
}

/// Where the signs of the legend begin, one behind the other, and where the last one has ended.
fn place_signs(alloc: Global, signs: &[Sign]) -> Result<(Vec<u32>, u32), NoMemory> {
    let mut places = Vec::new(alloc);
    let mut x = GAP;
    for sign in signs {
        places.push(x)?;
        x = x
            .saturating_add(sign_width(*sign))
            .saturating_add(label_width(meaning(*sign).len()))
            .saturating_add(SIGN_GAP);
    }
    Ok((places, x))
}

/// The rows from a place on with the lines of names between them, and where the last one ends.
fn place_rows(alloc: Global, rows: &[Row], at: u32) -> Result<(Vec<u32>, Vec<u32>, u32), NoMemory> {
    let mut places = Vec::new(alloc);
    let mut heads = Vec::new(alloc);
    let mut y = at;
    for (i, row) in rows.iter().enumerate() {
        if i > 0 && i % ROWS_A_HEAD == 0 {
            heads.push(y.saturating_add(HEAD_HEIGHT / 2))?;
            y = y.saturating_add(HEAD_HEIGHT);
        }
        places.push(y.saturating_add(NOTE_HEIGHT / 2))?;
        y = y.saturating_add(notes_height(row.notes.len().max(1)));
    }
    Ok((places, heads, y))
}

/// Lays a picture out below a legend of one line with these signs.
pub fn lay_out(alloc: Global, picture: &Picture, signs: &[Sign]) -> Result<Layout, NoMemory>
    ensures actors { IfOk result (λ l. actors_of l.lanes.items ≡ picture.now.lanes.items) }
    ensures apart { IfOk result (λ l. l.width < u32.MAX → StandApart l.lanes.items l.labels_at) }
    ensures labels { IfOk result (λ l. All (λ x. l.labels_at ≤ x) l.losses.items) }
{
    let rows = picture.rows.as_slice();
    let line_end = text_width(digits(last_line(rows))).saturating_add(GAP);
    let event_at = line_end.saturating_add(GAP / 2);
    let detail_at = text_width(longest_event(rows))
        .saturating_add(event_at)
        .saturating_add(GAP);
    let lanes_at = text_width(longest_detail(rows))
        .saturating_add(detail_at)
        .saturating_add(2 * GAP);
    let (lanes, labels_at) = place_lanes(alloc, &picture.lanes, lanes_at)?;
    let (losses, losses_end) = place_losses(alloc, picture, labels_at)?;
    let notes_end = labels_at
        .saturating_add(label_width(longest_of_rows(rows)))
        .saturating_add(GAP);
    let (signs, signs_end) = place_signs(alloc, signs)?;
    let width = labels_at.max(notes_end).max(losses_end).max(signs_end);
    let legend_end = SIGN_HEIGHT + GAP;
    let top = legend_end + HEAD_HEIGHT / 2;
    let (rows, heads, bottom) = place_rows(alloc, rows, legend_end + HEAD_HEIGHT)?;
    Ok(Layout {
        signs,
        line_end,
        event_at,
        detail_at,
        lanes,
        labels_at,
        losses,
        rows,
        heads,
        top,
        bottom,
        width,
    })
}

impl Layout {
    /// Where a sign of the legend begins, in the middle of its line.
    pub fn sign(&self, i: usize) -> Point {
        let x = match self.signs.get(i) {
            Some(x) => *x,
            None => 0,
        };
        Point { x, y: GAP }
    }

    /// Where the label of a loss begins: right of all lanes and their arrows.
    pub fn loss(&self, i: usize) -> u32 {
        match self.losses.get(i) {
            Some(x) => *x,
            None => self.labels_at,
        }
    }

    /// The middle of an actor's lane, 0 where it has none.
    pub fn lane(&self, actor: Actor) -> u32
        ensures { result ≡ lane_of self.now.lanes.items actor }
    {
        lane_of(&self.lanes, actor)
    }

    /// The middle of the first note of a row, the bottom where there is no such row.
    pub fn row(&self, row: usize) -> u32 {
        match self.rows.get(row) {
            Some(y) => *y,
            None => self.bottom,
        }
    }

    pub fn point(&self, actor: Actor, row: usize) -> Point {
        Point {
            x: self.lane(actor),
            y: self.row(row),
        }
    }
}
