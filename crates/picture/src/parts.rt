//! Rectangles, texts and paths of SVG 1.1.

use crate::layout::BEND_WIDTH;
use crate::text::Text;
use nop_types::Actor;

/// A point, in pixels from the left and from the top.
#[derive(Clone, Copy)]
pub struct Point {
    pub x: u32,
    pub y: u32,
}

/// What stands for a character of markup.
fn spelled(c: char) -> Option<&'static str> {
    match c {
        '&' => Some("&amp;"),
        '<' => Some("&lt;"),
        '>' => Some("&gt;"),
        _ => None,
    }
}

/// Appends a text with the characters of markup spelled out.
fn put_escaped(text: &str, to: &mut Text) {
    for c in text.chars() {
        match spelled(c) {
            Some(spelling) => to.put(spelling),
            None => to.character(c),
        }
    }
}

/// The name is as it stands before the value, with the quotation mark.
fn put_attribute(name: &str, value: u32, to: &mut Text) {
    to.numbered(name, u64::from(value));
    to.put("\"");
}

fn put_size(width: u32, height: u32, to: &mut Text) {
    put_attribute(" width=\"", width, to);
    put_attribute(" height=\"", height, to);
}

/// A picture of this size begins.
pub fn open_picture(width: u32, height: u32, to: &mut Text) {
    to.put("<svg xmlns=\"http://www.w3.org/2000/svg\" version=\"1.1\" role=\"img\"");
    put_size(width, height, to);
    to.numbered(" viewBox=\"0 0 ", u64::from(width));
    to.numbered(" ", u64::from(height));
    to.put("\">\n");
}

/// The white page behind all.
pub fn put_page(width: u32, height: u32, to: &mut Text) {
    to.put("<rect class=\"page\"");
    put_size(width, height, to);
    to.put("/>\n");
}

/// A part of this tag begins, with its place.
fn open(tag: &str, class: &str, at: Point, to: &mut Text) {
    to.put(tag);
    to.put(class);
    put_attribute("\" x=\"", at.x, to);
    put_attribute(" y=\"", at.y, to);
}

/// A rectangle by its left upper corner.
pub fn put_rect(class: &str, corner: Point, width: u32, height: u32, to: &mut Text) {
    open("<rect class=\"", class, corner, to);
    put_size(width, height, to);
    to.put("/>\n");
}

/// A text begins whose letters have their middle at this height.
fn open_words(class: &str, at: Point, to: &mut Text) {
    let base = Point {
        x: at.x,
        y: at.y.saturating_add(4),
    };
    open("<text class=\"", class, base, to);
    to.put(">");
}

pub fn put_words(class: &str, at: Point, text: &str, to: &mut Text) {
    open_words(class, at, to);
    put_escaped(text, to);
    to.put("</text>\n");
}

pub fn put_count(class: &str, at: Point, count: u32, to: &mut Text) {
    open_words(class, at, to);
    to.number(u64::from(count));
    to.put("</text>\n");
}

/// The name of an actor, and what follows it.
pub fn put_name(class: &str, at: Point, actor: Actor, behind: &str, to: &mut Text) {
    open_words(class, at, to);
    to.actor(actor);
    to.put(behind);
    to.put("</text>\n");
}

fn put_point(before: &str, point: Point, to: &mut Text) {
    to.numbered(before, u64::from(point.x));
    to.numbered(",", u64::from(point.y));
}

/// A path begins, of one or two classes.
fn begin_path(weight: &str, class: &str, from: Point, to: &mut Text) {
    to.put("<path class=\"");
    to.put(weight);
    to.put(class);
    put_point("\" d=\"M", from, to);
}

/// An outline round a point.
pub fn put_outline(class: &str, middle: Point, outline: &str, to: &mut Text) {
    begin_path("", class, middle, to);
    to.put(outline);
    to.put("\"/>\n");
}

/// A straight line of one or two classes.
pub fn put_line(weight: &str, class: &str, from: Point, end: Point, to: &mut Text) {
    begin_path(weight, class, from, to);
    put_point("L", end, to);
    to.put("\"/>\n");
}

/// A line to the right or to the left.
pub fn put_level(weight: &str, class: &str, from: Point, end: u32, to: &mut Text) {
    begin_path(weight, class, from, to);
    to.numbered("H", u64::from(end));
    to.put("\"/>\n");
}

/// A line that leaves its lane to the right, and comes back to it.
pub fn put_bend(weight: &str, class: &str, from: Point, end: Point, to: &mut Text) {
    let bend = from.x.saturating_add(BEND_WIDTH);
    begin_path(weight, class, from, to);
    put_point("C", Point { x: bend, y: from.y }, to);
    put_point(" ", Point { x: bend, y: end.y }, to);
    put_point(" ", end, to);
    to.put("\"/>\n");
}
