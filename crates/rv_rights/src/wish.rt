//! What is to be told.

use rv_refused::Filter;
use std::marker::Model;

/// Whose calls and calls of what are told, and in which form. Of the filter it heeds who calls, a unit or `Interrupts`, and what is called.
#[derive(Drop)]
pub struct Wish<'f> {
    /// What it takes.
    pub filter: Filter<'f>,
    /// Whether it is told as JSON, a line for each row.
    pub as_json: bool,
}

impl<'f> Model for Wish<'f> {
    ghost use Rattle.rv_rights.specs.Rights.{WishText};

    ghost Value = { WishText };

    ghost view = { λ w. record {
      filter = w.filter;
      as_json = w.as_json;
    } };
}
