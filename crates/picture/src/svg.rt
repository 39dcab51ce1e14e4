//! A picture as SVG 1.1.

ghost use Rattle.std.specs.Prelude.{string_bytes, IfOk};
ghost use Rattle.picture.specs.Texts.{IsWhole};

use crate::data::{Arrow, Loss, Mark, Note, Picture, Purpose, Role, Row, Stretch};
use crate::lane::Lane;
use crate::layout::{
    HEAD_HEIGHT, Layout, MISSES, NOTE_HEIGHT, lay_out, misses_width, notes_height,
};
use crate::legend::{Sign, meaning, sign_width, signs};
use crate::parts::{
    Point, open_picture, put_bend, put_count, put_level, put_line, put_name, put_outline, put_page,
    put_rect, put_words,
};
use crate::style::{ARROW_HEAD, ARROW_HEADS, STYLE};
use crate::text::Text;
use nop_types::NoMemory;
use std::alloc::Global;

/// The class of a mark, and its outline from its middle.
fn outline(mark: Mark) -> (&'static str, &'static str) {
    match mark {
        Mark::Submitted => ("submit", "m-4,-4h8v8h-8z"),
        Mark::Accepted => ("accept", "m-5,0a5,5 0 1,0 10,0a5,5 0 1,0 -10,0z"),
        Mark::Refused => ("refuse", "m-3,-3l6,6m0,-6l-6,6"),
        Mark::Stamped => ("stamp", "m-3,-5h6v10h-6z"),
        Mark::Session => ("session", "m0,-5l5,5l-5,5l-5,-5z"),
        Mark::Logged => ("log", "m-4,0a4,4 0 1,0 8,0a4,4 0 1,0 -8,0z"),
        Mark::NoOp => ("noop", "m-5,0a5,5 0 1,0 10,0a5,5 0 1,0 -10,0zm1.5,3.5l7,-7"),
        Mark::Checkpoint => ("checkpoint", "m-5,-5h10v10h-10zm0,4h10"),
        Mark::Entered => ("enter", "m0,-5l5,5l-5,5l-5,-5z"),
        Mark::Started => ("start", "m0,-5l5,5l-5,5l-5,-5z"),
        Mark::Synced => ("sync", "m0,-5l5,9h-10z"),
        Mark::Crashed => ("crash", "m-5,-5l10,10m0,-10l-10,10"),
        Mark::Acted => ("act", "m-3,0a3,3 0 1,0 6,0a3,3 0 1,0 -6,0z"),
        Mark::Idle => ("idle", "m-3,0a3,3 0 1,0 6,0a3,3 0 1,0 -6,0z"),
    }
}

fn arrow_class(purpose: Purpose) -> &'static str {
    match purpose {
        Purpose::Request => "request",
        Purpose::Reply => "reply",
        Purpose::Peer => "peer",
        Purpose::Session => "control",
    }
}

fn lane_class(role: Role) -> &'static str {
    match role {
        Role::Leads => "leads",
        Role::Follows => "follows",
        Role::Waits => "waits",
    }
}

fn put_mark(mark: Mark, middle: Point, to: &mut Text) {
    let (class, outline) = outline(mark);
    put_outline(class, middle, outline, to);
}

fn put_stretch(layout: &Layout, stretch: Stretch, to: &mut Text) {
    let x = layout.lane(stretch.actor);
    let top = match stretch.from {
        Some(row) => layout.row(row),
        None => layout.top.saturating_add(HEAD_HEIGHT / 2),
    };
    let bottom = match stretch.to {
        Some(row) => layout.row(row),
        None => layout.bottom,
    };
    let class = lane_class(stretch.role);
    put_line("", class, Point { x, y: top }, Point { x, y: bottom }, to);
}

/// An arrow; one that is delivered again is faint.
fn put_arrow(layout: &Layout, arrow: Arrow, to: &mut Text) {
    let class = arrow_class(arrow.purpose);
    let weight = if arrow.again { "again " } else { "arrow " };
    let from = layout.point(arrow.from, arrow.sent);
    let end = layout.point(arrow.to, arrow.taken);
    if from.x == end.x {
        put_bend(weight, class, from, end, to);
    } else {
        put_line(weight, class, from, end, to);
    }
}

/// A faint line with a cross at its end.
fn put_lost(class: &str, from: Point, end: u32, to: &mut Text) {
    put_level("lost ", class, from, end, to);
    let at = Point { x: end, y: from.y };
    put_outline("cross", at, "m-3,-3l6,6m0,-6l-6,6", to);
}

/// A line to the actor that got nothing, with a cross before its lane.
fn put_loss(layout: &Layout, loss: &Loss, to: &mut Text) {
    let from = layout.point(loss.from, loss.sent);
    let lane = layout.lane(loss.to);
    let end = if from.x < lane {
        lane.saturating_sub(8)
    } else {
        lane.saturating_add(8)
    };
    put_lost(arrow_class(loss.purpose), from, end, to);
}

fn put_label(class: &str, text: &str, at: Point, to: &mut Text) {
    if !text.is_empty() {
        put_words(class, at, text, to);
    }
}

/// Who misses a datagram, and which.
fn put_loss_label(layout: &Layout, i: usize, loss: &Loss, to: &mut Text) {
    let at = Point {
        x: layout.loss(i),
        y: layout.row(loss.sent),
    };
    put_name("missed", at, loss.to, MISSES, to);
    let what = Point {
        x: at.x.saturating_add(misses_width(loss.to)),
        y: at.y,
    };
    put_label("missed", loss.text.as_str(), what, to);
}

/// The mark of a note in its lane, and its label right of all lanes.
fn put_note(layout: &Layout, note: &Note, middle: Point, to: &mut Text) {
    put_mark(note.mark, middle, to);
    let at = Point {
        x: layout.labels_at,
        y: middle.y,
    };
    put_label("note", note.text.as_str(), at, to);
}

fn put_notes(layout: &Layout, i: usize, row: &Row, to: &mut Text) {
    let mut at = layout.point(row.actor, i);
    for note in &row.notes {
        put_note(layout, note, at, to);
        at.y = at.y.saturating_add(NOTE_HEIGHT);
    }
}

/// The band behind a row.
fn put_band(layout: &Layout, y: u32, notes: usize, to: &mut Text) {
    let corner = Point {
        x: 0,
        y: y.saturating_sub(NOTE_HEIGHT / 2),
    };
    put_rect("band", corner, layout.width, notes_height(notes), to);
}

/// The text beside the lanes, on a band for every second row.
fn put_side(layout: &Layout, i: usize, row: &Row, to: &mut Text) {
    let y = layout.row(i);
    if i % 2 == 0 {
        put_band(layout, y, row.notes.len(), to);
    }
    let line = Point {
        x: layout.line_end,
        y,
    };
    put_count("line", line, row.line, to);
    let event = Point {
        x: layout.event_at,
        y,
    };
    put_words("event", event, row.event.as_str(), to);
    let detail = Point {
        x: layout.detail_at,
        y,
    };
    put_words("detail", detail, row.detail.as_str(), to);
}

/// The name of a lane on a plate.
fn put_lane_name(lane: Lane, y: u32, to: &mut Text) {
    let corner = Point {
        x: lane.x.saturating_sub(14),
        y: y.saturating_sub(8),
    };
    put_rect("plate", corner, 28, 16, to);
    put_name("name", Point { x: lane.x, y }, lane.actor, "", to);
}

/// The names of the lanes.
fn put_names(layout: &Layout, y: u32, to: &mut Text) {
    for lane in &layout.lanes {
        put_lane_name(*lane, y, to);
    }
}

/// The head of an arrow of each purpose.
fn put_heads(to: &mut Text) {
    to.put("<defs>\n");
    for (id, fill) in ARROW_HEADS {
        to.put("<marker id=\"");
        to.put(id);
        to.put(ARROW_HEAD);
        to.put(fill);
        to.put("\"/></marker>\n");
    }
    to.put("</defs>\n");
}

/// A sign of the legend.
fn put_sign(sign: Sign, at: Point, to: &mut Text) {
    let end = at.x.saturating_add(20);
    let tip = at.x.saturating_add(24);
    match sign {
        Sign::Mark(mark) => {
            let x = at.x.saturating_add(5);
            put_mark(mark, Point { x, y: at.y }, to);
        }
        Sign::Arrow(purpose) => put_level("arrow ", arrow_class(purpose), at, tip, to),
        Sign::Again => put_level("again ", "request", at, tip, to),
        Sign::Loss => put_lost("request", at, end, to),
        Sign::Lane(role) => put_line("", lane_class(role), at, Point { x: end, y: at.y }, to),
    }
}

fn put_legend(layout: &Layout, signs: &[Sign], to: &mut Text) {
    for (i, sign) in signs.iter().enumerate() {
        let at = layout.sign(i);
        put_sign(*sign, at, to);
        let x = at.x.saturating_add(sign_width(*sign));
        put_words("note", Point { x, y: at.y }, meaning(*sign), to);
    }
}

/// What the picture shows, for who does not see it.
fn put_description(picture: &Picture, to: &mut Text) {
    to.numbered("<title>A run of ", picture.rows.len() as u64);
    to.put(" events</title>\n<desc>A column for each actor:");
    for actor in &picture.lanes {
        to.put(" ");
        to.actor(*actor);
    }
    to.put(". A row for each event, from the top down: the number of its line, its words, what ");
    to.put(
        "was delivered or submitted; then marks and arrows in the columns; then what happened, ",
    );
    to.put("and who never got what was sent.</desc>\n");
}

fn put_begin(layout: &Layout, picture: &Picture, to: &mut Text) {
    let width = layout.width;
    let height = layout.bottom.saturating_add(HEAD_HEIGHT / 2);
    open_picture(width, height, to);
    put_description(picture, to);
    to.put(STYLE);
    put_heads(to);
    put_page(width, height, to);
}

fn put_back(layout: &Layout, picture: &Picture, to: &mut Text) {
    for (i, row) in picture.rows.iter().enumerate() {
        put_side(layout, i, row, to);
    }
    for stretch in &picture.stretches {
        put_stretch(layout, *stretch, to);
    }
    for loss in &picture.losses {
        put_loss(layout, loss, to);
    }
    for arrow in &picture.arrows {
        put_arrow(layout, *arrow, to);
    }
}

fn put_prefix(layout: &Layout, picture: &Picture, to: &mut Text) {
    for (i, loss) in picture.losses.iter().enumerate() {
        put_loss_label(layout, i, loss, to);
    }
    for (i, row) in picture.rows.iter().enumerate() {
        put_notes(layout, i, row, to);
    }
    put_names(layout, layout.top, to);
    for y in &layout.heads {
        put_names(layout, *y, to);
    }
}

/// The picture as text.
pub fn draw(alloc: Global, picture: &Picture) -> Result<String, NoMemory>
    ensures { IfOk result (λ s. IsWhole (string_bytes s)) }
{
    let signs = signs(alloc, picture)?;
    let layout = lay_out(alloc, picture, &signs)?;
    let mut text = Text::new(alloc);
    put_begin(&layout, picture, &mut text);
    put_legend(&layout, &signs, &mut text);
    put_back(&layout, picture, &mut text);
    put_prefix(&layout, picture, &mut text);
    text.put("</svg>\n");
    text.finish()
}
