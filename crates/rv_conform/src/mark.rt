//! What the marks of profiles denote (6.1, 8.3).

ghost use Rattle.std.specs.Prelude.{◌≡◌};
ghost use Rattle.rv_tree.specs.NameView.{name_view};
ghost use Rattle.rv_static.specs.Meanings.{range_in};
ghost use Rattle.rv_conform.specs.Profiles.{subtype_place as place_of_subtype, mark_at};

use rv_scope::point::meaning;
use rv_scope::{Declared, Scope, Table};
use rv_shape::kind::Range;
use rv_static::Meaning;
use rv_tree::name::Name;

/// What a mark denotes where it stands.
#[derive(Clone, Copy)]
pub(crate) struct Mark {
    /// The subtype, by the place of its identifier, if the text declares it.
    pub(crate) declared: Option<usize>,
    /// Its range, if that is static.
    pub(crate) range: Option<Range>,
}

// The subtype of the text that is declared, by its place.
fn subtype_place(found: Option<Declared>) -> Option<usize>
    ensures { result ≡ place_of_subtype found }
{
    match found {
        Some(Declared::Subtype(at)) => Some(at),
        _ => None,
    }
}

// The range of a subtype, if that is what is meant.
fn static_range(meaning: Meaning) -> Option<Range>
    ensures { result ≡ range_in meaning }
{
    match meaning {
        Meaning::Subtype(range) => Some(range),
        _ => None,
    }
}

impl Mark {
    /// What a mark denotes at the point.
    pub(crate) fn of(name: &Name, scope: &Scope, statics: &Table) -> Mark
        ensures { result ≡ mark_at statics.now scope.now (name_view name.now) }
    {
        let found = scope.visible(name);
        Mark {
            declared: subtype_place(found),
            range: static_range(meaning(statics, found)),
        }
    }
}
