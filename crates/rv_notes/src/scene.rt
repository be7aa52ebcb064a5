//! Over what a list is judged.

ghost use Rattle.std.specs.Prelude.{◌≡◌};

use rv_shape::catalogue::Catalogue;
use std::marker::Model;

/// Over what a list is judged: the units, whether no others can come, and the clock.
#[derive(Drop)]
pub struct Scene<'a> {
    // The units that are loaded, or that a whole script loads.
    catalogue: &'a Catalogue,
    // Whether no others can come, as they can in a run.
    is_closed: bool,
    clock: u64,
}

impl<'a> Model for Scene<'a> {
    ghost use Rattle.rv_notes.specs.Names.{Scene};

    ghost Value = { Scene };

    ghost view = { λ s. record { shapes = s.catalogue.now; is_closed = s.is_closed; clock = s.clock } };
}

impl<'a> Scene<'a> {
    /// These units, whether no others can come, and the clock in ticks.
    pub fn new(catalogue: &'a Catalogue, is_closed: bool, clock: u64) -> Scene<'a>
        ensures { result ≡ record { shapes = catalogue.now; is_closed = is_closed; clock = clock } }
    {
        Scene {
            catalogue,
            is_closed,
            clock,
        }
    }

    /// The units.
    pub fn catalogue(&self) -> &'a Catalogue
        ensures { result.now ≡ self.now.shapes }
    {
        self.catalogue
    }

    /// Whether no others can come.
    pub fn is_closed(&self) -> bool
        ensures { result ≡ self.now.is_closed }
    {
        self.is_closed
    }

    /// The clock.
    pub fn clock(&self) -> u64
        ensures { result ≡ self.now.clock }
    {
        self.clock
    }
}
