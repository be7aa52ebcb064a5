//! Regions of declarations.

ghost use Rattle.std.specs.Prelude.{◌≡◌, [], OnOk, slice_get};
ghost use Rattle.indexmap.specs.IndexMap.{insert_entry};
ghost use Rattle.std.specs.List.{position, position_from};
ghost use Rattle.std.specs.Map.{keys_of, values_of};
ghost use Rattle.rv_text.specs.Names.{is_same_name};
ghost use Rattle.rv_scope.specs.Predefined.{named};

use crate::declared::Declared;
use indexmap::IndexMap;
use rv_shape::name::{Name, Sought};
use rv_text::is_same_name;
use std::alloc::{AllocError, Global};
use std::marker::Model;

// The names of a region are compared one after another with one that is looked up, where there are at most so many of them:
// that takes less than to hash it.
const FEW: usize = 8;

/// The names that a region declares so far, each once, and what they denote: nothing inside their own declarations
/// (8.1, 8.3).
pub struct Region {
    meanings: IndexMap<Name, Option<Declared>>,
}

impl Drop for Region {
    // A function of its own: a derived one is written out wherever a value is let go, and proved there.
    fn drop(self) {
        let Region { meanings: _ } = self;
    }
}

impl Model for Region {
    ghost use Rattle.rv_scope.specs.Scope.{Region as RegionView};

    ghost Value = { RegionView };

    ghost view = { λ r. r.meanings.entries };
}

// The index of the first of some names that is the same.
fn index_among(name: &str, keys: &[Name]) -> Option<usize>
    ensures { result ≡ position_from (is_same_name name.now) 0 keys.now }
{
    for (index, key) in keys.iter().enumerate() {
        if is_same_name(name, key.as_str()) {
            return Some(index);
        }
    }
    None
}

impl Region {
    /// No names.
    pub fn new(alloc: Global) -> Region
        ensures { result ≡ [] }
    {
        Region {
            meanings: IndexMap::new(alloc),
        }
    }

    // The index of a name.
    #[tactic(auto, using(crate::proofs::Regions::position_is))]
    fn index_of(&self, name: &str) -> Option<usize>
        ensures { result ≡ position (is_same_name name.now) (keys_of self.now) }
    {
        if self.meanings.len() > FEW {
            return self.meanings.get_index_of(Sought::new(name));
        }
        index_among(name, self.meanings.keys().as_slice())
    }

    // What the name of an index denotes.
    fn meaning_at(&self, index: usize) -> Option<Option<Declared>>
        ensures { result ≡ slice_get (values_of self.now) index }
    {
        self.meanings.values().as_slice().get(index).copied()
    }

    /// What a name denotes here, if the region declares it.
    #[tactic(auto, using(crate::proofs::Regions::is_absent))]
    pub fn find(&self, name: &str) -> Option<Option<Declared>>
        ensures { result ≡ named name.now self.now }
    {
        match self.index_of(name) {
            None => None,
            Some(index) => self.meaning_at(index),
        }
    }

    /// Declares a name. Err where memory was refused.
    #[tactic(auto, using(crate::proofs::Regions::written_there))]
    pub fn declare(
        &mut self,
        alloc: Global,
        name: &str,
        meaning: Option<Declared>,
    ) -> Result<(), AllocError>
        ensures { OnOk result (self.new ≡ insert_entry is_same_name self.old name.now meaning) }
    {
        if let Some(index) = self.index_of(name) {
            if let Some(found) = self.meanings.get_index_mut(index) {
                *found = meaning;
                return Ok(());
            }
        }
        let key = Name::new(String::from_str(alloc, name)?);
        self.meanings.insert(key, meaning)?;
        Ok(())
    }
}
