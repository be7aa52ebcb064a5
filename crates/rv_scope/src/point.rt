//! Points of a text, and what names mean there in static expressions.

ghost use Rattle.std.specs.Prelude.{◌≡◌};
ghost use Rattle.rv_scope.specs.Statics.{known_meaning as meaning_of_known, meaning_of, means as means_at};

use crate::declared::Declared;
use crate::known::{Known, Table};
use crate::library_meaning::predefined_meaning;
use crate::scope::Scope;
use rv_static::{Meaning, Meanings};
use rv_tree::name::Name;

/// A point of a text: what is declared there, and what is known of it.
#[derive(Clone, Copy)]
pub struct Point<'p, 's> {
    pub scope: &'p Scope<'s>,
    pub known: &'p Table,
}

impl<'p, 's> Meanings for Point<'p, 's> {
    ghost means = { λ p. means_at p.scope.now p.known.now };

    fn meaning(&self, name: &Name) -> Meaning {
        let found = self.scope.visible(name);
        meaning(self.known, found)
    }
}

/// What is known means in a static expression.
pub fn known_meaning(known: Option<Known>) -> Meaning
    ensures { result ≡ meaning_of_known known }
{
    match known {
        Some(Known::Subtype(range)) => Meaning::Subtype(range),
        Some(Known::Constant(range, value)) => Meaning::Constant(range.of, value),
        _ => Meaning::NotStatic,
    }
}

/// What a declaration means in a static expression.
pub fn meaning(known: &Table, found: Option<Declared>) -> Meaning
    ensures { result ≡ meaning_of known.now found }
{
    match found {
        Some(Declared::Subtype(at)) => known_meaning(known.find(at)),
        Some(Declared::Constant(at)) => known_meaning(known.find(at)),
        Some(Declared::Predefined(item)) => predefined_meaning(item),
        _ => Meaning::NotStatic,
    }
}
