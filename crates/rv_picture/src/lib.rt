//! A timeline as rows of letters, for a terminal, and as a picture, in SVG.
//!
//! A lane is an actor on an object. It has the bars of what that actor was at there: waits, bodies, refusals; delays stand in a lane of
//! no object. Both forms show the same bars and the same lanes.
#![tactic(auto)]

pub mod bar;
mod lane;
pub mod letters;
pub mod svg;
mod titles;
