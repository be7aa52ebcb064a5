//! What is found for identifiers, by their places.

ghost use Rattle.std.specs.Prelude.{◌≡◌, [], OnOk};
ghost use Rattle.rv_tree.specs.NameView.{identifiers_view};
ghost use Rattle.rv_scope.specs.ByPlace.{at_place, with_place, with_places};

use indexmap::IndexMap;
use rv_tree::name::Identifier;
use std::alloc::{AllocError, Global};
use std::marker::Model;

/// What is found for identifiers, by their places.
///
/// Contracts see a list of places and what was found for each.
pub struct ByPlace<T: Copy + Drop> {
    found: IndexMap<usize, T>,
}

impl<T: Copy + Drop> Drop for ByPlace<T> {
    // A function of its own: a derived one is written out wherever a value is let go, and proved there.
    fn drop(self) {
        let ByPlace { found: _ } = self;
    }
}

impl<T: Copy + Drop> Model for ByPlace<T> {
    ghost use Rattle.std.specs.Coded.{coded×, coded_ℕ, coded_list};
    ghost use Rattle.rv_scope.specs.ByPlace.{ByPlace as ByPlaceView};

    ghost Value = { ByPlaceView T };

    ghost coded = { coded_list (coded× coded_ℕ T.code) };

    ghost view = { λ b. b.found.entries };
}

impl<T: Copy + Drop> ByPlace<T> {
    /// Nothing is found.
    pub fn new(alloc: Global) -> ByPlace<T>
        ensures { result ≡ [] }
    {
        ByPlace {
            found: IndexMap::new(alloc),
        }
    }

    /// What is found for the identifier of this place.
    pub fn find(&self, at: usize) -> Option<T>
        ensures { result ≡ at_place self.now at }
    {
        self.found.get(&at).copied()
    }

    /// Notes what is found for the identifier of this place. Err where memory was refused.
    pub fn note(&mut self, at: usize, found: T) -> Result<(), AllocError>
        ensures { OnOk result (self.new ≡ with_place self.old at found) }
    {
        self.found.insert(at, found)?;
        Ok(())
    }
    /// The same, of several.
    pub fn note_all(&mut self, names: &Vec<Identifier>, found: T) -> Result<(), AllocError>
        ensures { OnOk result (self.new ≡ with_places self.old (identifiers_view names.now.items) found) }
    {
        for declared in names {
            self.note(declared.at, found)?;
        }
        Ok(())
    }
}
