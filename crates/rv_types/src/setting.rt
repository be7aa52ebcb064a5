//! What is known of a text before its bodies.

use rv_outline::outline::Outline;
use rv_shape::catalogue::Catalogue;
use std::marker::Model;

/// What is known of a text before its bodies.
#[derive(Drop)]
pub struct Setting<'a> {
    /// What its declarations mean.
    pub outline: &'a Outline,
    /// The loaded units.
    pub catalogue: &'a Catalogue,
    /// Whether the operators of Ada.Real_Time are visible: a `with` names it.
    pub times: bool,
}

impl<'a> Model for Setting<'a> {
    ghost use Rattle.rv_types.specs.BodiesOf.{Setting};

    ghost Value = { Setting };

    ghost view = { λ s. record { outline = s.outline.now; shapes = s.catalogue.now; times = s.times } };
}
