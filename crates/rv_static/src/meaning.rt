//! What names mean where a static expression stands, and what it gives.

ghost use Rattle.std.specs.Prelude.{◌≡◌};
ghost use Rattle.rv_tree.specs.NameView.{name_view};

use rv_shape::kind::{Range, ValueType};
use rv_tree::Name;

/// What a name means in a static expression.
#[derive(Clone, Copy)]
pub enum Meaning {
    /// A subtype, by the range of its values (3.2).
    Subtype(Range),
    /// A constant or a named number with a static value, True or False (3.3.1, 3.3.2, 3.5.3).
    Constant(ValueType, i64),
    /// `Ada.Real_Time.Milliseconds` (D.8).
    Milliseconds,
    /// Anything else.
    NotStatic,
}

/// Tells what names mean at a point of the text.
pub trait Meanings {
    ghost use Rattle.rv_tree.specs.Names as tree;
    ghost use Rattle.rv_static.specs.declared.meaning.Meaning.{Meaning};

    ghost means: { Self → tree.Name → Meaning };

    /// What the name means.
    fn meaning(&self, name: &Name) -> Meaning
        ensures { result ≡ means self.now (name_view name.now) };
}

/// The number that an expression gives; False is 0, and True is 1.
#[derive(Clone, Copy)]
pub enum Number {
    Known(i64),
    /// It isn't evaluated: the left operand of a short-circuit form decides without it (4.5.1).
    Skipped,
}

/// What a static expression gives.
#[derive(Clone, Copy)]
pub struct Static {
    pub of: ValueType,
    pub number: Number,
}
