//! Why a text is no unit.

use rv_lex::fault::LexFault;
use rv_names::NameFault;
use rv_parse::ParseFault;
use rv_restrict::Violation;
use rv_shape::fault::ShapeFault;
use rv_static::TypeFault;
use thiserror::Error;

/// Why a text is no unit. What is looked at first is told first: words, grammar, restrictions, names, types, shape. A
/// place is a byte of the text, from 0.
#[derive(Clone, Copy, Debug, PartialEq, Eq, Drop, Error)]
pub enum UnitFault {
    /// The words of the text have a fault.
    #[error("lex {0}")]
    Lex(LexFault),
    /// The text derives no tree, or nests too deep.
    #[error("parse {0}")]
    Parse(ParseFault),
    /// A restriction of the profile Ravenscar is broken (D.13).
    #[error("restriction {0}")]
    Restriction(Violation),
    /// A name isn't bound as it has to be, or a body is missing.
    #[error("names {0}")]
    Names(NameFault),
    /// A type, a mode or a static value doesn't fit.
    #[error("types {0}")]
    Types(TypeFault),
    /// The unit's shape is none, or doesn't fit those that are loaded.
    #[error("shape {0}")]
    Shape(ShapeFault),
    /// Memory was refused.
    #[error("NoMemory")]
    NoMemory,
}
