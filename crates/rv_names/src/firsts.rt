//! Where each name is declared first.

use indexmap::IndexMap;
use rv_shape::name::{Name, Sought};
use rv_tree::name::Identifier;
use std::alloc::{AllocError, Global};

/// The place of the first identifier of each name.
pub(crate) struct Firsts {
    places: IndexMap<Name, usize>,
}

impl Drop for Firsts {
    // A function of its own: a derived one is written out wherever a value is let go, and proved there.
    fn drop(self) {
        let Firsts { places: _ } = self;
    }
}

impl Firsts {
    /// No names.
    pub(crate) fn new(alloc: Global) -> Firsts {
        Firsts {
            places: IndexMap::new(alloc),
        }
    }

    /// The place of the first identifier of a name.
    pub(crate) fn find(&self, name: &str) -> Option<usize> {
        self.places.get(Sought::new(name)).copied()
    }

    /// Whether an identifier is the first of its name.
    pub(crate) fn has(&self, identifier: &Identifier) -> bool {
        match self.find(identifier.text.as_str()) {
            Some(at) => at == identifier.at,
            None => false,
        }
    }

    /// Notes an identifier, if it is the first of its name. Err where memory was refused.
    pub(crate) fn note(
        &mut self,
        alloc: Global,
        identifier: &Identifier,
    ) -> Result<(), AllocError> {
        let name = identifier.text.as_str();
        if self.find(name).is_some() {
            return Ok(());
        }
        let key = Name::new(String::from_str(alloc, name)?);
        self.places.insert(key, identifier.at)?;
        Ok(())
    }
}
