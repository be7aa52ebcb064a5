//! Names that were noted, to be asked again for each further one.

ghost use Rattle.std.specs.Prelude.{◌≡◌, ◌++◌, ◌∷◌, [], not, if◌then◌else◌, IfOk};
ghost use Rattle.std.specs.List.{list_any};
ghost use Rattle.rv_text.specs.Names.{is_same_name};
ghost use Rattle.rv_tree.specs.NameView.{identifier_view};

use indexmap::IndexSet;
use rv_shape::name::Name;
use rv_tree::name::Identifier;
use std::alloc::{AllocError, Global};
use std::marker::Model;

/// The names of the identifiers that were noted, each once.
pub(crate) struct Noted {
    names: IndexSet<Name>,
}

impl Drop for Noted {
    // A function of its own: a derived one is written out wherever a value is let go, and proved there.
    fn drop(self) {
        let Noted { names: _ } = self;
    }
}

impl Model for Noted {
    ghost use Rattle.std.specs.Prelude.{List, ℕ};

    ghost Value = { List (List ℕ) };

    ghost view = { λ n. n.names.keys };
}

impl Noted {
    /// None is noted.
    pub(crate) fn new(alloc: Global) -> Noted
        ensures { result ≡ [] }
    {
        Noted {
            names: IndexSet::new(alloc),
        }
    }

    /// Notes the name of an identifier, and says whether it is new (2.3). Err where memory was refused.
    pub(crate) fn note(
        &mut self,
        alloc: Global,
        identifier: &Identifier,
    ) -> Result<bool, AllocError>
        ensures new { IfOk result (λ is_new. is_new ≡ not (list_any (is_same_name (identifier_view identifier.now).text) self.old)) }
        ensures noted { IfOk result (λ is_new. self.new ≡ (if is_new then self.old ++ (identifier_view identifier.now).text ∷ [] else self.old)) }
    {
        let name = Name::new(String::from_str(alloc, identifier.text.as_str())?);
        let is_new = self.names.insert(name)?;
        Ok(is_new)
    }
}
