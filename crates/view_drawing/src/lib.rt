//! The picture of a log: who stood where, when, and which critical sets prove the lateness, as one
//! SVG file, whose texts stand as XML has them.
#![tactic(auto)]

mod axis;
mod bar;
mod caption;
mod drawing;
mod escape;
mod hatches;
mod lane_rows;
mod legend;
mod marks;
mod palette;
mod plain;
mod sheet;
mod story;

pub use drawing::{Subject, push_drawing};
pub use escape::push_escaped;
