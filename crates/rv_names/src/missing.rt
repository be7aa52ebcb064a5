//! Why a name denotes nothing: whether what it names exists and isn't visible, or doesn't exist.

use crate::fault::NameFault;
use rv_restrict::declared::{has_member, has_private, is_among, package_declares};
use rv_scope::declared::Declared;
use rv_scope::predefined::Library;
use rv_scope::scope::Scope;
use rv_scope::wanted::Wanted;
use rv_shape::object::Operation;
use rv_text::is_same_name;
use rv_tree::body::{Block, Local};
use rv_tree::declaration::{Parameter, ProtectedUnit};
use rv_tree::name::{Identifier, Name};
use rv_tree::unit::UnitTree;

/// What is declared around a point of a text, before it and behind it.
#[derive(Drop)]
pub(crate) struct Around<'a> {
    pub(crate) tree: &'a UnitTree,
    /// The protected units of the text, in the order of their numbers.
    pub(crate) units: &'a [&'a ProtectedUnit],
    /// The protected unit that the point is in.
    pub(crate) unit: Option<&'a ProtectedUnit>,
    /// The parameters that the point is among.
    pub(crate) parameters: Option<&'a Vec<Parameter>>,
    /// The block that the point is in.
    pub(crate) block: Option<&'a Block>,
}

const LIBRARIES: [Library; 8] = [
    Library::Standard,
    Library::System,
    Library::Ada,
    Library::RealTime,
    Library::SynchronousTaskControl,
    Library::Interrupts,
    Library::InterruptNames,
    Library::Host,
];

fn is_local(local: &Local, name: &str) -> bool {
    match local {
        Local::Object { names, .. } => is_among(name, names.as_slice()),
        _ => false,
    }
}

fn block_declares(block: &Block, name: &str) -> bool {
    block.locals.iter().any(|local| is_local(local, name))
}

fn parameters_declare(parameters: &[Parameter], name: &str) -> bool {
    parameters
        .iter()
        .any(|one| is_among(name, one.names.as_slice()))
}

// Whether a library package has a name, or declares it.
fn library_declares(name: &str) -> bool {
    Library::root(name).is_some()
        || LIBRARIES.iter().any(|library| library.declaration(name).is_some()
            || library.child(name).is_some())
}

fn has_operation(operations: &[Operation], name: &str) -> bool {
    operations
        .iter()
        .any(|operation| is_same_name(name, operation.name()))
}

impl<'a> Around<'a> {
    // Whether a simple name is declared somewhere, so that a `with`, a `use` or an earlier place would make it visible.
    fn knows(&self, scope: &Scope, name: &str) -> bool {
        if package_declares(self.tree, name) {
            return true;
        }
        if let Some(unit) = self.unit {
            if has_member(unit, name) {
                return true;
            }
        }
        if self.has_later_declaration(name) {
            return true;
        }
        is_loaded(scope, name) || is_hidden(scope, name) || library_declares(name)
    }

    // Whether the block around the point, or the parameters that it is among, declare a name.
    fn has_later_declaration(&self, name: &str) -> bool {
        if let Some(parameters) = self.parameters {
            return parameters_declare(parameters.as_slice(), name);
        }
        match self.block {
            Some(block) => block_declares(block, name),
            None => false,
        }
    }

    // Whether what stands behind a point exists, and is only shown to no one here.
    fn knows_behind(&self, scope: &Scope, prefix: Declared, name: &str) -> bool {
        match prefix {
            Declared::OwnUnit => package_declares(self.tree, name),
            Declared::Unit(unit) => has_object(scope, unit, name),
            Declared::UnitObject(unit, object) => has_unit_operation(scope, unit, object, name),
            Declared::LibraryPackage(library) => library.child(name).is_some(),
            Declared::ProtectedType(at, number) => {
                scope.is_current(at) && self.has_later_member(number, name)
            }
            Declared::SingleProtected(at, number) => {
                if scope.is_current(at) {
                    self.has_later_member(number, name)
                } else {
                    self.has_hidden_member(number, name)
                }
            }
            Declared::ProtectedObject(_, number) => self.has_hidden_member(number, name),
            Declared::Operation(at, _) | Declared::Task(at) => {
                scope.is_around(at) && self.has_later_declaration(name)
            }
            _ => false,
        }
    }

    // Whether the protected unit of a number declares a name that isn't visible yet within its declaration.
    fn has_later_member(&self, number: usize, name: &str) -> bool {
        match self.units.get(number) {
            Some(unit) => has_member(unit, name),
            None => false,
        }
    }

    // Whether it declares a name after `private`.
    fn has_hidden_member(&self, number: usize, name: &str) -> bool {
        match self.units.get(number) {
            Some(unit) => has_private(unit, name),
            None => false,
        }
    }

    // The fault of a name, at this place, whose part behind a point isn't visible. What a protected type declares has a name
    // for its objects alone.
    fn invisible_part(&self, scope: &Scope, prefix: Declared, part: &str, at: usize) -> NameFault {
        if let Declared::ProtectedType(declared, number) = prefix {
            if !scope.is_current(declared) && self.has_later_member(number, part) {
                return NameFault::WrongKind(at);
            }
        }
        unseen(at, self.knows_behind(scope, prefix, part))
    }

    // The fault of a name that isn't visible.
    fn invisible(&self, scope: &Scope, wanted: Wanted, name: &Name) -> NameFault {
        let at = name.first.at;
        let simple = name.first.text.as_str();
        let Some(mut found) = scope.first_denoted(wanted, simple) else {
            return unseen(at, self.knows(scope, simple));
        };
        for identifier in &name.more {
            let part = identifier.text.as_str();
            match scope.selected(found, part) {
                Some(next) => found = next,
                None => return self.invisible_part(scope, found, part, at),
            }
        }
        NameFault::Unknown(at)
    }

    /// The fault of a name that denotes nothing where this is wanted.
    pub(crate) fn fault(&self, scope: &Scope, wanted: Wanted, name: &Name) -> NameFault {
        match wanted {
            Wanted::Nothing => NameFault::WrongKind(name.first.at),
            Wanted::With
            | Wanted::PackageBody
            | Wanted::ProtectedBody
            | Wanted::TaskBody
            | Wanted::FunctionBody
            | Wanted::ProcedureBody
            | Wanted::EntryBody => NameFault::Unknown(name.first.at),
            _ => self.invisible(scope, wanted, name),
        }
    }

    /// The fault of the entry that an `accept` names: the profile has no entries of tasks (D.7, 9.5.2).
    pub(crate) fn accepted(&self, scope: &Scope, entry: &Identifier) -> NameFault {
        let name = entry.text.as_str();
        match scope.direct(name) {
            Some(_) => NameFault::WrongKind(entry.at),
            None => unseen(entry.at, self.knows(scope, name)),
        }
    }

    /// The fault of a body that no declaration stands before: one may stand behind it (3.11.1, 8.3).
    pub(crate) fn undeclared(&self, wanted: Wanted, body: &Identifier) -> NameFault {
        let is_later = match wanted {
            Wanted::ProtectedBody | Wanted::TaskBody => {
                package_declares(self.tree, body.text.as_str())
            }
            _ => false,
        };
        unseen(body.at, is_later)
    }
}

// The fault of a name at a place, that is declared somewhere or not.
fn unseen(at: usize, is_known: bool) -> NameFault {
    if is_known {
        NameFault::NotVisible(at)
    } else {
        NameFault::Unknown(at)
    }
}

// Whether a unit of this name is loaded.
fn is_loaded(scope: &Scope, name: &str) -> bool {
    for shape in scope.shapes() {
        if is_same_name(name, shape.name()) {
            return true;
        }
    }
    false
}

// Whether a name is hidden by its own declaration.
fn is_hidden(scope: &Scope, name: &str) -> bool {
    scope.innermost_meaning(name).is_some()
}

// Whether a loaded unit has an object of this name.
fn has_object(scope: &Scope, unit: usize, name: &str) -> bool {
    let Some(shape) = scope.shapes().get(unit) else {
        return false;
    };
    for object in shape.objects() {
        if is_same_name(name, object.name()) {
            return true;
        }
    }
    false
}

// Whether an object of a loaded unit has an operation of this name.
fn has_unit_operation(scope: &Scope, unit: usize, object: usize, name: &str) -> bool {
    match scope.shapes().get(unit) {
        Some(shape) => match shape.objects().get(object) {
            Some(found) => has_operation(found.operations(), name),
            None => false,
        },
        None => false,
    }
}
