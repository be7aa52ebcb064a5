//! Notes: what one has seen, told to a port.

use rv_behind::behind::Behind;
use std::marker::Model;

/// What a control or a port had seen when it made the note. Contracts see whose turn it is of, and
/// that history. It has no bytes but its type's.
#[derive(Drop)]
pub struct Note {
    pub(crate) note: rv_turn::Note<Behind>,
}

impl Model for Note {
    ghost use Rattle.std.specs.Coded.{codes};
    ghost use Rattle.rv_behind.specs.contracts.event.Event as e;
    ghost use Rattle.rv_turn.specs.Passes.{Noted};
    ghost use Rattle.rv_behind.specs.declared.event.Event.{Event};

    ghost Value = { Noted Event };

    ghost coded = { Prim.hlevel (codes, e.the_row.coded) };

    ghost view = { λ n. n.note };

    ghost use Rattle.rv_behind.specs.Acting.{BodiesFit};

    ghost invariant = { λ n. BodiesFit n.note.seen };
}
