//! Where in a unit text a fault stands.

use rv_lex::fault::LexFault;
use rv_parse::ParseFault;
use rv_static::TypeFault;
use rv_unit::UnitFault;

// The byte of a unit text where a fault of words stands.
fn place_of_words(fault: LexFault) -> Option<usize> {
    match fault {
        LexFault::BadCharacter(at)
        | LexFault::BadLiteral(at)
        | LexFault::BadIdentifier(at)
        | LexFault::NotAscii(at) => Some(at),
        LexFault::NoMemory => None,
    }
}

// The same of a fault of the grammar.
fn place_of_grammar(fault: ParseFault) -> Option<usize> {
    match fault {
        ParseFault::Lex(fault) => place_of_words(fault),
        ParseFault::Unexpected(at) | ParseFault::TooDeep(at) => Some(at),
        ParseFault::NoMemory => None,
    }
}

// The same of a fault of types.
fn place_of_types(fault: TypeFault) -> Option<usize> {
    match fault {
        TypeFault::Mismatch(at)
        | TypeFault::NotStatic(at)
        | TypeFault::ConstantWritten(at)
        | TypeFault::BadMode(at)
        | TypeFault::TooLarge(at)
        | TypeFault::BadChoice(at) => Some(at),
        TypeFault::NoMemory => None,
    }
}

/// The byte of a unit text where a fault stands; one of a shape has no place.
pub(crate) fn place_of(fault: UnitFault) -> Option<usize> {
    match fault {
        UnitFault::Lex(fault) => place_of_words(fault),
        UnitFault::Parse(fault) => place_of_grammar(fault),
        UnitFault::Restriction(violation) => Some(violation.place),
        UnitFault::Names(fault) => rv_further::place_of(fault),
        UnitFault::Types(fault) => place_of_types(fault),
        UnitFault::Shape(_) | UnitFault::NoMemory => None,
    }
}
