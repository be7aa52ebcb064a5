//! The range of what a name denotes (3.5).

ghost use Rattle.std.specs.Prelude.{◌≡◌};
ghost use Rattle.rv_seen.specs.Ranges.{range_of_known as known_range, range_of_meaning as subtype_range, range_of as declared_range};

use crate::names::place_of;
use rv_scope::library_meaning::predefined_meaning;
use rv_scope::{Declared, Known, Table};
use rv_shape::kind::Range;
use rv_static::Meaning;

// The range of what is known: that of a subtype, else that of its subtype.
fn range_of_known(known: Known) -> Option<Range>
    ensures { result ≡ known_range known }
{
    match known {
        Known::Subtype(range) => Some(range),
        Known::Constant(range, _) => Some(range),
        Known::Variable(_, range, _) => Some(range),
        Known::Component(_, range) => Some(range),
        Known::Operation(_, _) | Known::Object(_) => None,
    }
}

// The range of a subtype; all else has none.
fn range_of_meaning(meaning: Meaning) -> Option<Range>
    ensures { result ≡ subtype_range meaning }
{
    match meaning {
        Meaning::Subtype(range) => Some(range),
        _ => None,
    }
}

/// The range of what is declared, as far as the text's declarations are known: that of a subtype, else that of its subtype.
pub fn range_of(table: &Table, found: Declared) -> Option<Range>
    ensures { result ≡ declared_range table.now found }
{
    match found {
        Declared::Predefined(item) => range_of_meaning(predefined_meaning(item)),
        _ => {
            let known = table.find(place_of(found)?)?;
            range_of_known(known)
        }
    }
}
