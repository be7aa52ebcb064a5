//! What is known of the declarations of a text.

use crate::by_place::ByPlace;
use rv_shape::kind::Range;

/// What is known of a declaration.
#[derive(Clone, Copy)]
pub enum Known {
    /// A subtype, by the range of its values (3.2.2).
    Subtype(Range),
    /// A constant or a named number with a static value, by its subtype and its value (3.3.1, 3.3.2).
    Constant(Range, i64),
    /// A parameter, a variable, a loop parameter, or a constant of a block whose value isn't static: its slot, its subtype,
    /// and whether it may be written (3.3, 5.5, 6.1).
    Variable(usize, Range, bool),
    /// A component of a protected unit, by its index from 0, and its subtype (9.4).
    Component(usize, Range),
    /// An operation, by the number of its protected unit and its own index there, both from 0 (9.4).
    Operation(usize, usize),
    /// An object, protected or a suspension object, by its number from 1 in the catalogue with this unit added (9.4, D.10).
    Object(usize),
}

/// What is known of declarations, by the places of their identifiers.
pub type Table = ByPlace<Known>;
