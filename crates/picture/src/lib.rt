//! A run as a picture: lanes, rows, marks and arrows as plain data, and their SVG. Of the other
//! crates it knows the names of actors.
//!
//! What is proved is where lanes are, the columns of actors. The lane of an actor is that of its
//! name (`lane_of`); `lay_out` makes one for each actor that the picture gives, in that order, and
//! while the picture is narrower than 2^32 - 1 pixels each is left of the next (`StandApart`), and the
//! labels begin right of all lanes and of the arrows that bend out of them, so no label lies on an
//! arrow. `same` says whether two actors are equal. The rest is safe and ends; that it looks right is
//! tested (`drawing`, `checks/stories.sh`).
//!
//! Calls: `draw` gives the text of a `Picture`; `Text` grows by parts, and tells want of memory at
//! its end; `same`.
//!
//! Files: `data` (a `Picture`), `lane`, `layout`, `svg`; `legend`, `parts`, `style` and `text`
//! below it. Definitions: `specs/Lanes`, `Actors`.
#![tactic(auto)]

mod data;
mod lane;
mod layout;
mod legend;
mod parts;
mod style;
mod svg;
mod text;

pub use data::{Arrow, Loss, Mark, Note, Picture, Purpose, Role, Row, Stretch};
pub use lane::same;
pub use svg::draw;
pub use text::Text;
